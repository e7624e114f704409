//! The steps, and the writer's phases.

/// A step of the sequence lock. A reader goes by its number, counted from 0.
#[derive(Clone, Copy, Debug, PartialEq, Eq)]
pub enum Step {
    /// The writer begins to publish this pair: the number becomes odd.
    Begin(u64, u64),
    /// The writer stores the pair's first word.
    StoreA,
    /// The writer stores the pair's second word.
    StoreB,
    /// The writer makes the number even: the pair is published.
    End,
    /// A reader begins a try: it loads the number.
    First(u32),
    /// A reader loads the first word.
    LoadA(u32),
    /// A reader loads the second word.
    LoadB(u32),
    /// A reader loads the number again, which ends its try.
    Second(u32),
    /// A reader meets the writer while both rest, and learns the last number.
    Meet(u32),
}

/// What the writer has done of a publication.
#[derive(Clone, Copy, Debug, PartialEq, Eq)]
pub enum WriterPhase {
    /// Nothing: it rests.
    Idle,
    /// The number is odd; the pair is to be stored.
    Begun(u64, u64),
    /// The first word is stored.
    WroteA(u64, u64),
    /// Both words are stored.
    WroteB(u64, u64),
}
