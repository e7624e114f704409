//! The laws of replays and of generated runs. Each function does nothing: its contract is the law.
ghost use Rattle.neigh_replay.specs.Generated.{GeneratedPlansAreOfTheirFiles, GeneratedRunsAreComplete, SummariesAreOne};
ghost use Rattle.neigh_replay.specs.Replay.{ReplaysAreComplete, ScriptsAreComplete};

/// Where the files are told, whole and not refused, and nothing fails outside, the status is 0, or 1 for want of memory:
/// with a line bound below 2^22, and for a script alone in any case.
pub fn replays_are_complete()
    ensures bound { ReplaysAreComplete }
    ensures scripts { ScriptsAreComplete }
{}

/// The plan of a number is that of its two files: of every capture that is read as its frames and every text that is read as its script, as the
/// files that `generate` gives are.
pub fn generated_plans_are_of_their_files()
    ensures { GeneratedPlansAreOfTheirFiles }
{}

/// A number has at most one summary.
pub fn summaries_are_one()
    ensures { SummariesAreOne }
{}

/// Where the output's count doesn't rise, the status of a generated run is 0, or 1 for want of memory.
pub fn generated_runs_are_complete()
    ensures { GeneratedRunsAreComplete }
{}
