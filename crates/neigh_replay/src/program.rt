//! The program: the words that it was given, and the command that they make.
ghost use Rattle.std.specs.Prelude.{◌≡◌, map, string_bytes, MatchResult};
ghost use Rattle.neigh_replay.specs.Command.{IsCommand, IsWithoutWords};
ghost use Rattle.neigh_replay.specs.Replay.{files_call, sink_call};

use crate::status::{say_no_memory, say_usage};
use crate::top::run;
use nb_io::{Gate, Inputs, Sink};
use std::alloc::Global;
use std::env;
use std::io::ErrorKind;
use std::rt::Env;

/// Why a program has no words.
#[derive(Clone, Copy, Debug, PartialEq, Eq)]
pub enum NoWords {
    /// One of them isn't UTF-8.
    NotText,
    Memory,
}

/// The words behind the program's name.
pub fn command_words<R: Env + AllocGlobal>(rt: &R) -> Result<Vec<String>, NoWords> {
    let given = match env::args(rt) {
        Ok(given) => given,
        Err(error) => match error.kind() {
            ErrorKind::OutOfMemory => return Err(NoWords::Memory),
            _ => return Err(NoWords::NotText),
        },
    };
    let mut words = Vec::new(rt.alloc());
    for word in given.skip(1) {
        if words.push(word).is_err() {
            return Err(NoWords::Memory);
        }
    }
    Ok(words)
}

/// The command of the words that the program was given, and its status. Words that aren't text are none of the command's.
/// Without memory for the words it isn't known whether they are.
pub fn answer<R, I: Inputs, K: Sink, E: Sink, G: Gate>(
    rt: &R,
    alloc: Global,
    words: Result<Vec<String>, NoWords>,
    inputs: &mut I,
    out: &mut K,
    err: &mut E,
    gate: &G,
) -> u8
    ensures { MatchResult words
        (λ given. IsCommand (map string_bytes given.items) (files_call (I.held inputs.old) (I.faults inputs.old) (I.faults inputs.new))
        (sink_call (K.taken out.old) (K.taken out.new) (K.faults out.old) (K.faults out.new))
        (sink_call (E.taken err.old) (E.taken err.new) (E.faults err.old) (E.faults err.new)) result)
        (λ why. IsWithoutWords why
        (sink_call (K.taken out.old) (K.taken out.new) (K.faults out.old) (K.faults out.new))
        (sink_call (E.taken err.old) (E.taken err.new) (E.faults err.old) (E.faults err.new)) result) }
{
    match words {
        Ok(given) => run(rt, alloc, &given, inputs, out, err, gate),
        Err(NoWords::NotText) => {
            say_usage(err);
            2
        }
        Err(NoWords::Memory) => {
            say_no_memory(err);
            1
        }
    }
}
