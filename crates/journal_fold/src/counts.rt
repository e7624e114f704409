//! How many entries are of a kind, and how many packets wait.
ghost use Rattle.std.specs.Prelude.{◌≡◌, ◌<◌, ◌^◌, filter, length};
ghost use Rattle.journal_fold.specs.Kept as kept_in;
ghost use Rattle.journal_fold.specs.Removing.{number_waiting};

use nb_journal::{Kept, is_loose};

/// How many present entries are neither PERMANENT nor NOARP.
pub fn count_loose(kept: &[Kept]) -> usize
    ensures { result ≡ length (filter kept_in.is_loose kept.now) }
{
    let mut count = 0;
    for one in kept {
        if is_loose(one) {
            count += 1;
        }
    }
    count
}

/// How many packets wait.
pub fn count_waiting(kept: &[Kept]) -> usize
    requires { length kept.now < 2 ^ 32 }
    ensures { result ≡ number_waiting kept.now }
{
    let mut count = 0;
    for one in kept {
        count += one.waiting.len() as usize;
    }
    count
}
