//! The laws of the texts of runs. Each function does nothing, or hands on a law from below: its contract is the law.
ghost use Rattle.run_texts.specs.Laws.{ReportsTellToldRuns, TextsTellToldRuns, InlineRunsAreTold, InlineRunsAreWritable, TextsTellInlineRuns, ThreadedRunsAreTold, ThreadedRunsAreWritable, TextsTellThreadedRuns};

use neigh_run::laws::inline_runs_have_one_order;

/// Two runs of one plan, in one mode and with marks at the same moments, that are told by their texts are one where they have one report,
/// and so where they have one text; one of them has to be one that can be written.
pub fn texts_tell_told_runs()
    ensures reports { ReportsTellToldRuns }
    ensures texts { TextsTellToldRuns }
{}

/// An inline run of a plan within its limits is told by its text, with any number of buckets: each line's operation follows from its
/// number, what a line saw is printed or is the number present in the only bucket, and each packet's place and reply are those of the journals.
pub fn inline_runs_are_told()
    ensures { InlineRunsAreTold }
{}

/// An inline run of a plan that can be played can be written.
pub fn inline_runs_are_writable()
    ensures { InlineRunsAreWritable }
{
    inline_runs_have_one_order();
}

/// An inline run of a plan that can be played is told by its text from every other run of the plan in that mode, without marks, that is
/// told by its own.
pub fn texts_tell_inline_runs()
    ensures { TextsTellInlineRuns }
{
    inline_runs_are_writable();
}

/// A run with a thread for each participant, of a plan within its limits, is told by its text, with any number of buckets: each line's
/// operation follows from its number, each packet's place and reply are those of the journals, and a fast packet's header is that of the
/// record with its number.
pub fn threaded_runs_are_told()
    ensures { ThreadedRunsAreTold }
{}

/// A run with a thread for each participant, of a plan that can be played, can be written.
pub fn threaded_runs_are_writable()
    ensures { ThreadedRunsAreWritable }
{}

/// Two runs with a thread for each participant, of one plan that can be played, are one where they have one text.
pub fn texts_tell_threaded_runs()
    ensures { TextsTellThreadedRuns }
{}
