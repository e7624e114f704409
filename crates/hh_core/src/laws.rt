//! What is proved of the lock's states. The functions do nothing; their contracts are the laws.
ghost use Rattle.hh_core.specs.Laws.{SafeAtFirst, SafeWithFreshReader, SafeStep, SafeRun, GoodTry, PublishedStays, FloorsRise, RestingReadersAgree, TriesGoOn};
ghost use Rattle.hh_core.specs.Tries.{TryOfARun};

/// The first state is safe.
pub fn safe_at_first()
    ensures { SafeAtFirst }
{}

/// One more reader, which has seen nothing, leaves a state safe.
pub fn safe_with_fresh_reader()
    ensures { SafeWithFreshReader }
{}

/// Each allowed step keeps a state safe, whatever that state is.
pub fn safe_step()
    ensures { SafeStep }
{}

/// Every list of steps keeps a state safe.
pub fn safe_run()
    ensures { SafeRun }
{}

/// The words of a good try are one whole published pair with its number, and it was the last
/// published one at the try's second load.
pub fn good_try()
    ensures { GoodTry }
{}

/// What was published keeps its number.
pub fn published_stays()
    ensures { PublishedStays }
{}

/// No reader's floor falls.
pub fn floors_rise()
    ensures { FloorsRise }
{}

/// Where the writer rests, each reader that rests agrees with what was published: each pair that it
/// knows is the published pair of that number, and neither its floor nor its tries go past the last.
pub fn resting_readers_agree()
    ensures { RestingReadersAgree }
{}

/// The numbers of a try are at least twice the reader's floor, and those of all its tries, in
/// order, never fall.
pub fn tries_go_on()
    ensures { TriesGoOn }
{}

/// The words of each good try of a run are one whole published pair with its number, which was the
/// last published one at the try's second load, and keeps its number in all that follows.
pub fn try_of_a_run()
    ensures { TryOfARun }
{}
