//! Calls of the whole command over files that are held in memory. The words of a call are one text, with spaces between them.
use nb_base::{Bytes, Items};
use nb_io::{MemoryFile, MemoryInputs, MemorySink, OpenGate};
use neigh_replay::{NoWords, answer, run};
use std::alloc::{AllocError, Global};

pub const HOST: &str = "host dev eth0 lladdr 02:00:00:00:00:02 inet 10.0.0.2\n";

/// The words that name the script `s`.
pub const NAMED: &str = "--script s";

/// The words that name the script `s` and the capture `c`.
pub const BESIDE: &str = "--script s --capture c";

pub const USAGE: &str =
    "neigh: usage: neigh --script FILE [--capture FILE] [--mode inline|threads] [--window MS] [--buckets N] | neigh --generate NUMBER\n";

/// The status of a call, and what it writes to standard output and to standard error.
#[derive(Clone, Copy)]
pub struct Ending<'a> {
    pub status: u8,
    pub out: &'a str,
    pub err: &'a str,
}

/// The ending with this status and text, which goes to standard output at the status 0, and to standard error at any other.
pub fn ending_of(status: u8, text: &str) -> Ending<'_> {
    if status == 0 {
        Ending {
            status,
            out: text,
            err: "",
        }
    } else {
        Ending {
            status,
            out: "",
            err: text,
        }
    }
}

/// The ending over a sink that takes the first ten bytes alone.
pub const TEN_BYTES: Ending<'static> = Ending {
    status: 6,
    out: "neigh 1 mo",
    err: "neigh: cannot write\n",
};

/// A first text with another behind it.
pub fn joined(alloc: Global, front: &str, rest: &str) -> Result<Bytes, AllocError> {
    let mut text = String::from_str(alloc, front)?;
    text.push_str(rest)?;
    Ok(Items::from_vec(text.into_bytes()))
}

/// The words, between which there are spaces.
fn words_of(alloc: Global, text: &str) -> Result<Vec<String>, AllocError> {
    let mut words = Vec::new(alloc);
    for word in text.split_ascii_whitespace() {
        words.push(String::from_str(alloc, word)?)?;
    }
    Ok(words)
}

fn file(alloc: Global, name: &str, bytes: Bytes) -> Result<MemoryFile, AllocError> {
    let name = joined(alloc, name, "")?;
    Ok(MemoryFile { name, bytes })
}

/// The file `s` alone. The numbers are those of the calls that are to fail; opening and reading it are the first three.
pub fn script_alone(
    alloc: Global,
    script: Bytes,
    fails: &[u32],
) -> Result<MemoryInputs, AllocError> {
    let mut files = Vec::new(alloc);
    files.push(file(alloc, "s", script)?)?;
    MemoryInputs::new(alloc, files, fails)
}

/// The files `s` and `c`.
pub fn script_and_capture(
    alloc: Global,
    script: &str,
    capture: Vec<u8>,
    fails: &[u32],
) -> Result<MemoryInputs, AllocError> {
    let mut files = Vec::new(alloc);
    files.push(file(alloc, "s", joined(alloc, script, "")?)?)?;
    files.push(file(alloc, "c", Items::from_vec(capture))?)?;
    MemoryInputs::new(alloc, files, fails)
}

fn no_errors(alloc: Global) -> Result<MemorySink, AllocError> {
    MemorySink::new(alloc, 200, 200, &[])
}

fn has_bytes(sink: &MemorySink, text: &str) -> bool {
    sink.bytes() == text.as_bytes()
}

/// The status of the call.
fn status_of(
    rt: &HostRuntime,
    alloc: Global,
    words: &[String],
    inputs: &mut MemoryInputs,
    out: &mut MemorySink,
    err: &mut MemorySink,
) -> u8 {
    run(rt, alloc, words, inputs, out, err, &OpenGate)
}

/// The status of the call of a command that was given no words.
fn status_without_words(
    rt: &HostRuntime,
    alloc: Global,
    why: NoWords,
    inputs: &mut MemoryInputs,
    out: &mut MemorySink,
    err: &mut MemorySink,
) -> u8 {
    answer(rt, alloc, Err(why), inputs, out, err, &OpenGate)
}

/// Whether the call that may write to the sink ends so.
pub fn ends_into(
    rt: &HostRuntime,
    alloc: Global,
    words: &str,
    mut inputs: MemoryInputs,
    mut out: MemorySink,
    ending: &Ending,
) -> Result<bool, AllocError> {
    let words = words_of(alloc, words)?;
    let mut err = no_errors(alloc)?;
    let status = status_of(rt, alloc, &words, &mut inputs, &mut out, &mut err);
    Ok(status == ending.status && has_bytes(&out, ending.out) && has_bytes(&err, ending.err))
}

/// Whether the call ends so, with room for 16,384 bytes of a report.
pub fn ends(
    rt: &HostRuntime,
    alloc: Global,
    words: &str,
    inputs: MemoryInputs,
    ending: &Ending,
) -> Result<bool, AllocError> {
    let out = MemorySink::new(alloc, 16_384, 16_384, &[])?;
    ends_into(rt, alloc, words, inputs, out, ending)
}

/// Whether the call replays the files to the report.
pub fn replays(
    rt: &HostRuntime,
    alloc: Global,
    words: &str,
    inputs: MemoryInputs,
    report: &str,
) -> Result<bool, AllocError> {
    ends(rt, alloc, words, inputs, &ending_of(0, report))
}

/// Whether the call of a command that was given no words ends so.
pub fn ends_without_words(
    rt: &HostRuntime,
    alloc: Global,
    why: NoWords,
    mut inputs: MemoryInputs,
    ending: &Ending,
) -> Result<bool, AllocError> {
    let mut out = MemorySink::new(alloc, 10, 10, &[])?;
    let mut err = no_errors(alloc)?;
    let status = status_without_words(rt, alloc, why, &mut inputs, &mut out, &mut err);
    Ok(status == ending.status && has_bytes(&out, ending.out) && has_bytes(&err, ending.err))
}

/// What the call writes where it ends with status 0, with room for so many bytes.
pub fn report_of(
    rt: &HostRuntime,
    alloc: Global,
    words: &str,
    mut inputs: MemoryInputs,
    room: u32,
) -> Result<Option<MemorySink>, AllocError> {
    let words = words_of(alloc, words)?;
    let mut out = MemorySink::new(alloc, room, 65_536, &[])?;
    let mut err = no_errors(alloc)?;
    let status = status_of(rt, alloc, &words, &mut inputs, &mut out, &mut err);
    Ok(if status == 0 { Some(out) } else { None })
}
