//! As many frames as a capture may have, none of which asks anything of the host: the command ends with status 0, and its report has a line
//! for each. This program ends with status 0 where that is so.
#![tactic(auto)]

use nb_base::{Bytes, Items};
use nb_io::{MemoryFile, MemoryInputs, MemorySink, OpenGate};
use neigh_replay::run;
use std::alloc::{AllocError, Global};
use std::process::ExitCode;

const SCRIPT: &str = "host dev eth0 lladdr 02:00:00:00:00:02 inet 10.0.0.2\n";

const WORDS: [&str; 4] = ["--script", "s", "--capture", "c"];

/// The header of a classic capture of Ethernet frames, with stamps of microseconds, in big-endian byte order.
const FILE_HEADER: [u8; 24] = [
    0xa1, 0xb2, 0xc3, 0xd4, 0, 2, 0, 4, 0, 0, 0, 0, 0, 0, 0, 0, 0, 4, 0, 0, 0, 0, 0, 1,
];

/// Four records of frames of 14 bytes at one moment: two are for another host, one is the host's own, and one is of another type.
const FOUR_RECORDS: [u8; 120] = [
    0, 0, 0, 0, 0, 0, 0, 0, 0, 0, 0, 14, 0, 0, 0, 14, // a record of 14 bytes
    0, 0x11, 0x22, 0x33, 0x44, 0x66, 0, 0x11, 0x22, 0x33, 0x44, 0x55, 8, 6, // foreign
    0, 0, 0, 0, 0, 0, 0, 0, 0, 0, 0, 14, 0, 0, 0, 14, //
    0, 0x11, 0x22, 0x33, 0x44, 0x66, 0, 0x11, 0x22, 0x33, 0x44, 0x55, 8, 0, // foreign
    0, 0, 0, 0, 0, 0, 0, 0, 0, 0, 0, 14, 0, 0, 0, 14, //
    2, 0, 0, 0, 0, 2, 2, 0, 0, 0, 0, 2, 8, 6, // own
    0, 0, 0, 0, 0, 0, 0, 0, 0, 0, 0, 14, 0, 0, 0, 14, //
    2, 0, 0, 0, 0, 2, 0, 0x11, 0x22, 0x33, 0x44, 0x55, 8, 0, // other
];

/// How the report begins.
const FIRST_LINES: &str = "\
neigh 1 mode inline buckets 1 senders 1 window 50
host dev eth0 lladdr 02:00:00:00:00:02 inet 10.0.0.2
bucket 0 lines 0
host lines 262144
1 0 frame foreign
2 0 frame foreign
3 0 frame own
4 0 frame other
5 0 frame foreign
";

/// How it ends.
const LAST_LINES: &str = "\
262143 0 frame own
262144 0 frame other
sender 1 items 0
marks 0
fates sent 0 fast 0 dropped 0 waiting 0
table 0
proxies 0
end
";

/// Its length, with a line for each frame.
const LENGTH: usize = 5_525_216;

fn bytes(alloc: Global, text: &str) -> Result<Bytes, AllocError> {
    Ok(Items::from_vec(Vec::from_slice(alloc, text.as_bytes())?))
}

/// A capture of 2^18 frames.
fn capture(alloc: Global) -> Result<Bytes, AllocError> {
    let mut file = FILE_HEADER.to_vec(alloc)?;
    for _ in 0..65_536 {
        file.extend_from_slice(&FOUR_RECORDS)?;
    }
    Ok(Items::from_vec(file))
}

/// The files `s` and `c`.
fn inputs(alloc: Global) -> Result<MemoryInputs, AllocError> {
    let mut files = Vec::new(alloc);
    files.push(MemoryFile {
        name: bytes(alloc, "s")?,
        bytes: bytes(alloc, SCRIPT)?,
    })?;
    files.push(MemoryFile {
        name: bytes(alloc, "c")?,
        bytes: capture(alloc)?,
    })?;
    MemoryInputs::new(alloc, files, &[])
}

fn words(alloc: Global) -> Result<Vec<String>, AllocError> {
    let mut words = Vec::new(alloc);
    for word in &WORDS {
        words.push(String::from_str(alloc, word)?)?;
    }
    Ok(words)
}

fn tells_all_frames(report: &[u8]) -> bool {
    report.len() == LENGTH
        && report.starts_with(FIRST_LINES.as_bytes())
        && report.ends_with(LAST_LINES.as_bytes())
}

/// Whether the command reports every frame.
fn reports_all(rt: &HostRuntime, alloc: Global) -> Result<bool, AllocError> {
    let mut files = inputs(alloc)?;
    let mut out = MemorySink::new(alloc, 5_600_000, 65_536, &[])?;
    let mut err = MemorySink::new(alloc, 200, 200, &[])?;
    let status = run(
        rt,
        alloc,
        &words(alloc)?,
        &mut files,
        &mut out,
        &mut err,
        &OpenGate,
    );
    Ok(status == 0 && err.bytes().is_empty() && tells_all_frames(out.bytes()))
}

fn main(rt: HostRuntime) -> ExitCode {
    match reports_all(&rt, rt.alloc()) {
        Ok(true) => ExitCode::SUCCESS,
        _ => ExitCode::FAILURE,
    }
}
