//! Two runs of the input that is generated from 1 print the same four lines, whose fates are those of all 20,000 packets. This program ends
//! with status 0 where that is so.
#![tactic(auto)]

use nb_io::{MemoryInputs, MemorySink, OpenGate};
use neigh_replay::run;
use std::alloc::{AllocError, Global};
use std::process::ExitCode;

const WORDS: [&str; 2] = ["--generate", "1"];

/// What is printed: 19,813 packets were sent and 187 dropped.
const SUMMARY: &str = "\
generated 1 records 10000 sends 20000 lines 30267
fates sent 19813 fast 0 dropped 187 waiting 0
table 200
end
";

fn words(alloc: Global) -> Result<Vec<String>, AllocError> {
    let mut words = Vec::new(alloc);
    for word in &WORDS {
        words.push(String::from_str(alloc, word)?)?;
    }
    Ok(words)
}

/// Whether a run prints exactly the summary.
fn prints_the_summary(rt: &HostRuntime, alloc: Global) -> Result<bool, AllocError> {
    let mut files = MemoryInputs::new(alloc, Vec::new(alloc), &[])?;
    let mut out = MemorySink::new(alloc, 1_000, 1_000, &[])?;
    let mut err = MemorySink::new(alloc, 200, 200, &[])?;
    let status = run(
        rt,
        alloc,
        &words(alloc)?,
        &mut files,
        &mut out,
        &mut err,
        &OpenGate,
    );
    Ok(status == 0 && err.bytes().is_empty() && out.bytes() == SUMMARY.as_bytes())
}

fn main(rt: HostRuntime) -> ExitCode {
    for _ in 0..2 {
        match prints_the_summary(&rt, rt.alloc()) {
            Ok(true) => {}
            _ => return ExitCode::FAILURE,
        }
    }
    ExitCode::SUCCESS
}
