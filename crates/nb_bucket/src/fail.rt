//! Why a bucket doesn't go on.
ghost use Rattle.std.specs.Prelude.{◌≡◌};

use std::alloc::AllocError;

/// Why a bucket doesn't go on.
#[derive(Clone, Copy, Debug, PartialEq, Eq)]
pub enum BucketFail {
    /// The journal has `has` lines, and no room for the `needs` lines that come next at once.
    JournalFull { has: u32, needs: u32 },
    /// Want of memory.
    Memory,
}

impl From<AllocError> for BucketFail {
    ghost use Rattle.nb_bucket.specs.declared.fail.BucketFail.TheVariants.{Memory};

    ghost from_gives = { λ _ e. e ≡ Memory };

    fn from(_e: AllocError) -> BucketFail {
        BucketFail::Memory
    }
}
