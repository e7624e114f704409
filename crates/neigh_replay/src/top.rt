//! The whole command.
ghost use Rattle.std.specs.Prelude.{map, string_bytes};
ghost use Rattle.neigh_words.specs.Settings.{wanted_by};
ghost use Rattle.neigh_replay.specs.Command.{HasEnded, IsCommand};
ghost use Rattle.neigh_replay.specs.Replay.{IsReplay, files_call, sink_call, inline_by};

use crate::generated::run_generated;
use crate::replay::replay;
use crate::status::{say_no_memory, say_usage, status_of, tell};
use nb_io::{Gate, Inputs, Sink};
use neigh_words::{Command, Settings, SettingsFail, settings};
use std::alloc::Global;

/// Replays by one thread what the settings ask for, writes the report or says why there is none, and answers the status.
/// It takes no notice of the settings' mode.
pub fn run_inline<I: Inputs, K: Sink, E: Sink>(
    alloc: Global,
    settings: &Settings,
    inputs: &mut I,
    out: &mut K,
    err: &mut E,
) -> u8
    ensures { IsReplay (inline_by settings.now) (files_call (I.held inputs.old) (I.faults inputs.old) (I.faults inputs.new))
        (sink_call (K.taken out.old) (K.taken out.new) (K.faults out.old) (K.faults out.new))
        (sink_call (E.taken err.old) (E.taken err.new) (E.faults err.old) (E.faults err.new)) result }
{
    match replay(alloc, settings, inputs, out) {
        Ok(()) => 0,
        Err(failure) => status_of(tell(alloc, failure, settings, err)),
    }
}

/// Makes the replay or the generated run that is asked for.
fn run_asked<I: Inputs, K: Sink, E: Sink>(
    alloc: Global,
    command: &Command,
    inputs: &mut I,
    out: &mut K,
    err: &mut E,
) -> u8
    ensures { HasEnded (wanted_by command.now) (files_call (I.held inputs.old) (I.faults inputs.old) (I.faults inputs.new))
        (sink_call (K.taken out.old) (K.taken out.new) (K.faults out.old) (K.faults out.new))
        (sink_call (E.taken err.old) (E.taken err.new) (E.faults err.old) (E.faults err.new)) result }
{
    match command {
        Command::Replay(settings) => run_inline(alloc, settings, inputs, out, err),
        Command::Generate(number) => run_generated(alloc, *number, out, err),
    }
}

/// The command: reads the words, makes the replay or the generated run that they ask for, and answers the status. Nothing is taken of the runtime and the gate yet.
pub fn run<R, I: Inputs, K: Sink, E: Sink, G: Gate>(
    _rt: &R,
    alloc: Global,
    words: &[String],
    inputs: &mut I,
    out: &mut K,
    err: &mut E,
    _gate: &G,
) -> u8
    ensures { IsCommand (map string_bytes words.now) (files_call (I.held inputs.old) (I.faults inputs.old) (I.faults inputs.new))
        (sink_call (K.taken out.old) (K.taken out.new) (K.faults out.old) (K.faults out.new))
        (sink_call (E.taken err.old) (E.taken err.new) (E.faults err.old) (E.faults err.new)) result }
{
    match settings(alloc, words) {
        Ok(command) => run_asked(alloc, &command, inputs, out, err),
        Err(SettingsFail::Usage) => {
            say_usage(err);
            2
        }
        Err(SettingsFail::Memory) => {
            say_no_memory(err);
            1
        }
    }
}
