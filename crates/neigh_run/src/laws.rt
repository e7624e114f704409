//! The laws of runs and of their reports. Each function does nothing, or hands on a law from below: its contract is the law.
ghost use Rattle.neigh_run.specs.Laws.{OneBucketSeesItself, InlineRunsAreInOrder, InlineRunsHaveOneOrder, InlineRunsAreOne, ReportsGiveTheirLinesBack, TextsTellReports, OnlyBelowIsSetIn, FatesAddUpInline, EachPacketHasOneFate, FatesAreCounted};

use change_order::calls_give_one_order;

/// A line that looks sees, in a table of one bucket, the number of entries present there.
pub fn one_bucket_sees_itself()
    ensures { OneBucketSeesItself }
{}

/// In an inline run all changes of all buckets stand in one order, call by call, and what a line saw is the sum of the numbers present
/// behind the changes that stand before the line and its collect lines.
pub fn inline_runs_have_one_order()
    ensures order { InlineRunsAreInOrder }
    ensures one { InlineRunsHaveOneOrder }
{
    calls_give_one_order();
}

/// A plan has at most one inline run, with any number of buckets: its operations, in their order, force every journal line, what each
/// line saw of the whole table, every reply and every outcome.
pub fn inline_runs_are_one()
    ensures { InlineRunsAreOne }
{}

/// The text of a report gives its lines back: no word of a report holds a space or an LF, so splitting at them undoes joining.
/// Two runs with one text have one report.
pub fn reports_give_their_lines_back()
    ensures lines { ReportsGiveTheirLinesBack }
    ensures one { TextsTellReports }
{}

/// In a journal only what stands below a line begins with a space, so a reader tells each line from what it saw and from its acts.
pub fn only_what_stands_below_is_set_in()
    ensures { OnlyBelowIsSetIn }
{}

/// The four numbers of a report's fates are together the packets of the plan, in an inline run of a plan whose participant 0 sends no packet itself.
pub fn fates_add_up_inline()
    ensures { FatesAddUpInline }
{}

/// Each packet of an inline run has exactly one fate: it was sent at one line, or dropped at one line by a cause, or it waits at the end.
/// The four numbers of the report's fates count these.
pub fn each_packet_has_one_fate()
    ensures one { EachPacketHasOneFate }
    ensures counted { FatesAreCounted }
{}
