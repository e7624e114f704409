//! The laws of evidence. Each function does nothing, or hands on a law from below: its contract is the law.
ghost use Rattle.run_evidence.specs.FromTokens.{CallsAreEvidence, MeetingsAreEvidence, MeetingsJoin, AgreementIsEvidence, PassesAreEvidence};
ghost use Rattle.run_evidence.specs.Growing.{OneMoreCall, OneMorePacket, OneMoreItem, WindowsGoOn, OneMoreWindow};
ghost use Rattle.run_evidence.specs.Closing.{OneMoreControlWindow, MarksGoOn, GatheredIsARun};
ghost use Rattle.run_evidence.specs.Refused.{ShownGoOn, NoJournalIsFull};
ghost use Rattle.run_evidence.specs.Laws.{ShowsMarks, ShowsLogs, ShowsLawful, ShowsLines, ShowsPlaces, ShowsCauses, ShowsBounds, ShowsHostLines, ShowsOrder, ShowsEnds, ShowsRun};

use change_order::counts_give_one_order;

/// There is a log for each sender, with one outcome for each of its packets.
pub fn evidence_shows_logs()
    ensures { ShowsLogs }
{}

/// A mark stands before each window that has items, and one at the end; lengths never fall, and the last are the journals'.
pub fn evidence_shows_marks()
    ensures { ShowsMarks }
{}

/// The journals are lawful, and so are their lines up to each mark.
pub fn evidence_shows_lawful_journals()
    ensures { ShowsLawful }
{}

/// Operations' lines are those of the participants, each once, in order, at its moment and between its window's marks.
pub fn evidence_shows_lines()
    ensures { ShowsLines }
{}

/// Slow packets have the places and the replies of their lines.
pub fn evidence_shows_places()
    ensures { ShowsPlaces }
{}

/// A packet has the cause `First` exactly where it is its sender's first to the key.
pub fn evidence_shows_causes()
    ensures { ShowsCauses }
{}

/// What a packet has read lies in its bounds.
pub fn evidence_shows_bounds()
    ensures { ShowsBounds }
{}

/// The host's journal is that of the plan's items.
pub fn evidence_shows_host_lines()
    ensures { ShowsHostLines }
{}

/// All changes of all buckets stand in one order, in which each line that looked has its place.
pub fn evidence_shows_order()
    ensures { ShowsOrder }
{
    counts_give_one_order();
}

/// No journal goes on behind the moment at which the last window begins and that of its last operation.
pub fn evidence_shows_ends()
    ensures { ShowsEnds }
{}

/// Evidence of a plan is of a run of the plan with a thread for each participant.
pub fn evidence_shows_a_run()
    ensures { ShowsRun }
{
    evidence_shows_order();
}

/// Evidence is gathered one call, one packet of a sender, one item of participant 0 and one window at a time. A call changes its bucket's
/// stamp alone. All windows and the last mark are a history of each stamp.
pub fn evidence_goes_on()
    ensures call { OneMoreCall }
    ensures packet { OneMorePacket }
    ensures item { OneMoreItem }
    ensures windows { WindowsGoOn }
    ensures window { OneMoreWindow }
    ensures control_window { OneMoreControlWindow }
    ensures marks { MarksGoOn }
{}

/// What the ends of all loops and giving up all tokens tell together is of a run of the plan with a thread for each participant.
pub fn gathered_tokens_show_a_run()
    ensures { GatheredIsARun }
{
    evidence_shows_a_run();
}

/// A run within its line bound has no call that is told that a journal is full: when all tokens are given up, the lines that such a call
/// saw and those that it was to make are fewer than the bound. What is counted for that goes on call by call.
pub fn no_journal_is_full()
    ensures counted { ShownGoOn }
    ensures never { NoJournalIsFull }
{}

/// What the calls of stamps and of passes say in their own terms gives what evidence asks of them: a call of a bucket, a meeting or an
/// advance, meetings one after another, a stamp that is given up; and a pass that read, that was met, and that is given up.
pub fn tokens_tell_evidence()
    ensures calls { CallsAreEvidence }
    ensures meetings { MeetingsAreEvidence }
    ensures join { MeetingsJoin }
    ensures agreement { AgreementIsEvidence }
    ensures passes { PassesAreEvidence }
{}
