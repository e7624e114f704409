//! What is proved of captures. The function does nothing; its contract is the law.
ghost use Rattle.pcap_records.specs.Capture.{CapturesAreBounded};

/// The records of a capture lie within its bytes, their moments never fall and are at most 30 days,
/// and there are at most 2^18 of them.
pub fn captures_are_bounded()
    ensures { CapturesAreBounded }
{}
