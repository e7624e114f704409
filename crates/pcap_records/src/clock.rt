//! The moments of records, from their stamps.
ghost use Rattle.std.specs.Prelude.{◌≡◌};
ghost use Rattle.pcap_records.specs.Reading.{start_clock, tick};

/// What the moments so far come to: the first stamp, if there was one, and the last moment, 0 at first. In milliseconds.
#[derive(Clone, Copy, Debug)]
pub(crate) struct Clock {
    pub first: Option<u64>,
    pub last: u64,
}

impl Clock {
    /// Before the first record.
    pub(crate) fn new() -> Clock
        ensures { result ≡ start_clock }
    {
        Clock {
            first: None,
            last: 0,
        }
    }

    /// The clock once a record with this stamp is read.
    #[tactic(auto, unfolding(crate::specs::Reading::tick))]
    pub(crate) fn after(self, stamp: u64) -> Clock
        ensures { result ≡ tick self stamp }
    {
        let first = self.first.unwrap_or(stamp);
        Clock {
            first: Some(first),
            last: self.last.max(stamp.saturating_sub(first)),
        }
    }
}
