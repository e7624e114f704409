//! What is proved of journals' counts. Each function does nothing; its contract is the law.
ghost use Rattle.journal_counts.specs.Laws.{CallsJoin, CountsGrowByCalls};

/// A journal that grows by a call says what it said before, and what the call's lines say.
pub fn counts_grow_by_calls()
    ensures { CountsGrowByCalls }
{}

/// The lines of two calls, one after the other, say together what they say as those of one call.
pub fn calls_join()
    ensures { CallsJoin }
{}
