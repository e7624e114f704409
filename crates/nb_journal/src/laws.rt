//! The laws of journals. Each function does nothing: its contract is the law.
ghost use Rattle.nb_journal.specs.Laws.{KeysGrow, RanksStay, DuesLieAhead, SweepsCutInTwo, EmptyIsLawful, LawfulEarlier, GoesOnByOperation, GoesOnByTimer, GoesOnBySweep, GoesOnInTime, CellsPublishStates, TimersLower, PotentialsAreSmall, LawfulInBound, BrokenOffInBound, PacketsLeaveInOrder, EachSendHasOneFate, FatesAddUp, LawfulAreOne, OrderlyJournalsAreStepped};

/// The keys that a journal knows are the first of those that a longer one knows, and each keeps its rank.
pub fn known_keys_only_grow()
    ensures grow { KeysGrow }
    ensures stay { RanksStay }
{}

/// A due that a line sets lies at least ten milliseconds behind the line.
pub fn dues_lie_ahead()
    ensures { DuesLieAhead }
{}

/// The lines before a sweep's moment and the timers at it are the first lines of a lawful journal.
pub fn sweeps_cut_in_two()
    ensures { SweepsCutInTwo }
{}

/// The empty journal is lawful, and a lawful journal goes on by each operation's line, behind the collects that it asks for.
pub fn lawful_goes_on()
    ensures empty { EmptyIsLawful }
    ensures operation { GoesOnByOperation }
{}

/// A journal goes on by the timer's line of its next due, by a sweep's line at a multiple of the interval, and by time alone where
/// nothing is due and no such multiple comes.
pub fn lawful_goes_on_by_itself()
    ensures timer { GoesOnByTimer }
    ensures sweep { GoesOnBySweep }
    ensures time { GoesOnInTime }
{}

/// A lawful journal is lawful at every lesser clock that its last line hasn't passed.
pub fn lawful_earlier()
    ensures { LawfulEarlier }
{}

/// The records that a key's cell publishes are those of its entry's successive states, equal neighbours once.
pub fn cells_publish_states()
    ensures { CellsPublishStates }
{}

/// A timer lowers its entry's potential, and no potential is large.
pub fn timers_lower_potentials()
    ensures lower { TimersLower }
    ensures small { PotentialsAreSmall }
{}

/// A journal has fewer lines than its line bound. With the operation that goes on a lawful journal, its collects and its line count in too.
pub fn journals_stay_in_bound()
    ensures lawful { LawfulInBound }
    ensures broken_off { BrokenOffInBound }
{}

/// Packets to a key leave its queue in the order of their sends, each once: those that have gone out or been dropped, and then those that wait, are those that were sent.
pub fn packets_leave_in_order()
    ensures { PacketsLeaveInOrder }
{}

/// A packet that a lawful journal sends once has exactly one fate: it went out at one line, or it was dropped at one line by
/// a cause, or it waits at the end.
pub fn each_send_has_one_fate()
    ensures { EachSendHasOneFate }
{}

/// In a lawful journal the packets that went out, those that were dropped and those that wait are together as many as the lines that send.
pub fn fates_add_up()
    ensures { FatesAddUp }
{}

/// Two journals that are lawful at one clock and have the same operations are one, where the lines before a line determine what it
/// saw, in both alike.
pub fn lawful_journals_are_one()
    ensures { LawfulAreOne }
{}

/// The machine can step over each line of a journal, lawful or broken off, whose last moment is one of a run and whose operations
/// may be asked for: every moment is one of a run, and each timer's line stands at its key's due.
pub fn orderly_journals_are_stepped()
    ensures { OrderlyJournalsAreStepped }
{}
