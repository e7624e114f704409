//! What holds of every step.
ghost use Rattle.nud_machine.specs.Laws.{EveryStepKeepsSound, EveryStepStaysInRun, EveryNewDueIsAhead, EveryTimerMovesTheDue, EveryFailedEntryHasNothingLeft, EveryStepKeepsTheOrder};

/// Every step keeps what holds between steps: an address exactly in the valid states, a due exactly where
/// a timer runs, packets wait only in INCOMPLETE, a confirmation in REACHABLE.
pub fn every_step_keeps_sound()
    ensures { EveryStepKeepsSound }
{}

/// Every step at a moment of a run leaves moments of a run.
pub fn every_step_stays_in_run()
    ensures { EveryStepStaysInRun }
{}

/// Every due that a step leaves and that wasn't there before is at least ten milliseconds from its moment.
pub fn every_new_due_is_ahead()
    ensures { EveryNewDueIsAhead }
{}

/// Every due that a timer leaves is at least ten milliseconds from its moment.
pub fn every_timer_moves_the_due()
    ensures { EveryTimerMovesTheDue }
{}

/// An entry enters FAILED without an address and without a due.
pub fn every_failed_entry_has_nothing_left()
    ensures { EveryFailedEntryHasNothingLeft }
{}

/// The packets that a step sends or drops, and then those that wait, are those that waited and then the
/// new one, in this order.
pub fn every_step_keeps_the_order()
    ensures { EveryStepKeepsTheOrder }
{}
