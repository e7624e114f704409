use nb_base::Items;
use nb_io::{
    FileInputs, Gate, Inputs, MemoryFile, MemoryInputs, MemorySink, OpenGate, OutSink, ReadFail,
    WriteFault, read_all, write_all,
};
use std::alloc::{AllocError, Global};
use std::fs;
use std::test::Fail;

// Reads of a name with a limit of 6 bytes, where the one file is `f`. The opening is call 1.
struct Reading {
    shows: &'static str,
    name: &'static str,
    held: &'static [u8],
    fails: &'static [u32],
    answer: Result<&'static [u8], ReadFail>,
    faults: u64,
}

const READINGS: [Reading; 8] = [
    Reading {
        shows: "empty file",
        name: "f",
        held: b"",
        fails: &[],
        answer: Ok(b""),
        faults: 0,
    },
    Reading {
        shows: "exactly the limit",
        name: "f",
        held: b"abcdef",
        fails: &[],
        answer: Ok(b"abcdef"),
        faults: 0,
    },
    Reading {
        shows: "one byte more",
        name: "f",
        held: b"abcdefg",
        fails: &[],
        answer: Err(ReadFail::TooLong),
        faults: 0,
    },
    Reading {
        shows: "nothing is read behind one byte more",
        name: "f",
        held: b"abcdefgh",
        fails: &[3],
        answer: Err(ReadFail::TooLong),
        faults: 0,
    },
    Reading {
        shows: "failing open",
        name: "f",
        held: b"abc",
        fails: &[1],
        answer: Err(ReadFail::ReadFault),
        faults: 1,
    },
    Reading {
        shows: "failing second read",
        name: "f",
        held: b"abc",
        fails: &[3],
        answer: Err(ReadFail::ReadFault),
        faults: 1,
    },
    Reading {
        shows: "a call that isn't made",
        name: "f",
        held: b"abc",
        fails: &[4],
        answer: Ok(b"abc"),
        faults: 0,
    },
    Reading {
        shows: "missing name",
        name: "g",
        held: b"abc",
        fails: &[],
        answer: Err(ReadFail::ReadFault),
        faults: 1,
    },
];

/// Inputs of the one file `f`.
fn inputs_of(alloc: Global, held: &[u8], fails: &[u32]) -> Result<MemoryInputs, AllocError> {
    let name = Items::from_vec(Vec::from_slice(alloc, b"f")?);
    let bytes = Items::from_vec(Vec::from_slice(alloc, held)?);
    let mut files = Vec::new(alloc);
    files.push(MemoryFile { name, bytes })?;
    MemoryInputs::new(alloc, files, fails)
}

/// Whether the read answers as it is to.
fn reads_so(alloc: Global, inputs: &mut MemoryInputs, case: &Reading) -> bool {
    match read_all(alloc, inputs, case.name, 6) {
        Ok(bytes) => case.answer == Ok(bytes.as_slice()),
        Err(why) => case.answer == Err(why),
    }
}

#[test]
fn reads_whole_files_from_memory(rt: HostRuntime) -> Result<(), Fail> {
    for case in &READINGS {
        let mut inputs = inputs_of(rt.alloc(), case.held, case.fails)?;
        assert!(rt; reads_so(rt.alloc(), &mut inputs, case), "{}", case.shows);
        assert_eq!(rt; inputs.faults(case.name), case.faults, "{}", case.shows);
    }
    Ok(())
}

// Writes of `neigh 1 mode inline` to a sink in memory.
struct Writing {
    shows: &'static str,
    room: u32,
    most: u32,
    fails: &'static [u32],
    answer: Result<(), WriteFault>,
    taken: &'static [u8],
    faults: u64,
}

const WRITINGS: [Writing; 3] = [
    Writing {
        shows: "three bytes a call",
        room: 19,
        most: 3,
        fails: &[],
        answer: Ok(()),
        taken: b"neigh 1 mode inline",
        faults: 0,
    },
    Writing {
        shows: "failing second call",
        room: 100,
        most: 10,
        fails: &[2],
        answer: Err(WriteFault),
        taken: b"neigh 1 mo",
        faults: 1,
    },
    Writing {
        shows: "full room",
        room: 4,
        most: 10,
        fails: &[],
        answer: Err(WriteFault),
        taken: b"neig",
        faults: 1,
    },
];

#[test]
fn writes_to_memory(rt: HostRuntime) -> Result<(), Fail> {
    for case in &WRITINGS {
        assert!(rt; case.most > 0);
        let mut sink = MemorySink::new(rt.alloc(), case.room, case.most, case.fails)?;
        let answer = write_all(&mut sink, b"neigh 1 mode inline");
        assert_eq!(rt; answer, case.answer, "{}", case.shows);
        assert_eq!(rt; sink.bytes(), case.taken, "{}", case.shows);
        assert_eq!(rt; sink.faults(), case.faults, "{}", case.shows);
    }
    Ok(())
}

/// What reading a file of the system answers: its length, or why it failed.
fn length_read<I: Inputs>(
    alloc: Global,
    inputs: &mut I,
    name: &str,
    limit: usize,
) -> Result<usize, ReadFail> {
    let bytes = read_all(alloc, inputs, name, limit)?;
    Ok(bytes.len())
}

#[test]
fn reads_files_of_the_system(rt: HostRuntime) -> Result<(), Fail> {
    let path = "nb_io_read.tmp";
    fs::write(&rt, path, "12345")?;
    let mut inputs = FileInputs::new(&rt);
    let whole = read_all(rt.alloc(), &mut inputs, path, 5)?;
    assert_eq!(rt; whole.as_slice(), b"12345".as_slice());
    // Two files may be opened, and a missing one is none.
    let fault = Err(ReadFail::ReadFault);
    for (name, limit, answer, faults) in [
        ("nb_io_missing.tmp", 5, fault, 1),
        (path, 4, Err(ReadFail::TooLong), 1),
        (path, 5, fault, 2),
    ] {
        let read = length_read(rt.alloc(), &mut inputs, name, limit);
        assert_eq!(rt; (read, inputs.faults()), (answer, faults));
    }
    fs::remove_file(&rt, path)?;
    Ok(())
}

/// Writes two pieces to the file, and says whether both went without a fault.
fn writes_two(rt: &HostRuntime, path: &str) -> Result<bool, Fail> {
    let mut sink = OutSink::new(fs::create(rt, path)?);
    let first = write_all(&mut sink, b"first ").is_ok();
    let second = write_all(&mut sink, b"second").is_ok();
    Ok(first && second && sink.faults() == 0)
}

/// What a sink over the file answers where it is open for reading alone, and its faults then.
fn writes_to_closed(rt: &HostRuntime, path: &str) -> Result<(Result<(), WriteFault>, u64), Fail> {
    let mut sink = OutSink::new(fs::open(rt, path)?);
    let answer = write_all(&mut sink, b"third");
    Ok((answer, sink.faults()))
}

#[test]
fn writes_files_of_the_system(rt: HostRuntime) -> Result<(), Fail> {
    let path = "nb_io_write.tmp";
    assert!(rt; writes_two(&rt, path)?);
    assert_eq!(rt; fs::read(&rt, path)?.as_slice(), b"first second".as_slice());
    assert_eq!(rt; writes_to_closed(&rt, path)?, (Err(WriteFault), 1));
    fs::remove_file(&rt, path)?;
    Ok(())
}

#[test]
fn an_open_gate_lets_all_through(_rt: HostRuntime) {
    let gate = OpenGate;
    gate.before(1, 1);
    gate.after(1, 1);
}
