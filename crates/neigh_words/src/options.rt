//! What the words ask for.
ghost use Rattle.std.specs.Prelude.{◌≡◌, IsTrue};
ghost use Rattle.nb_base.specs.Buckets.{is_bucket_count};
ghost use Rattle.nb_base.specs.declared.plan.Mode.TheVariants.{Inline};
ghost use Rattle.neigh_words.specs.Window.{is_window};

use nb_base::Mode;

/// What a replay is asked for: the name of its script, that of its capture where it has one, its mode, the length of its windows in milliseconds,
/// 1 to 60,000, and the number of its buckets, 1, 2, 4, 8, 16, 32 or 64. The mode `threads` isn't built, so no settings ask for it.
#[derive(Debug, Drop)]
pub struct Settings {
    pub script: String,
    pub capture: Option<String>,
    pub mode: Mode,
    pub window: u32,
    pub buckets: u32,
    ghost window_fits: { IsTrue (is_window window) },
    ghost inline: { mode ≡ Inline },
    ghost buckets_fit: { IsTrue (is_bucket_count buckets) },
}

/// What the words ask for: a replay, or a run of the input that is generated from a number.
#[derive(Debug, Drop)]
pub enum Command {
    Replay(Settings),
    Generate(u64),
}

/// Why there is no command.
#[derive(Clone, Copy, Debug, PartialEq, Eq)]
pub enum SettingsFail {
    /// The words aren't of the command.
    Usage,
    Memory,
}
