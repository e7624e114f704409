//! The program: real files, standard output and standard error for the command.
#![tactic(auto)]

use nb_io::{FileInputs, OpenGate, OutSink};
use neigh_replay::{answer, command_words};
use std::process::ExitCode;

fn main(rt: HostRuntime) -> ExitCode {
    let words = command_words(&rt);
    let mut inputs = FileInputs::new(&rt);
    let mut out = OutSink::new(rt.stdout());
    let mut err = OutSink::new(rt.stderr());
    ExitCode::from(answer(
        &rt,
        rt.alloc(),
        words,
        &mut inputs,
        &mut out,
        &mut err,
        &OpenGate,
    ))
}
