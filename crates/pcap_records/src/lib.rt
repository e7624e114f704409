//! Classic capture files (draft-ietf-opsawg-pcap, version 2.4): read as records that name places within the file, and written.
#![tactic(auto)]

mod capture;
mod clock;
mod fail;
mod form;
mod header;
mod laws;
mod reading;
mod writing;

pub use capture::{Capture, Frame, Rec};
pub use fail::CaptureFail;
pub use laws::captures_are_bounded;
pub use reading::read;
pub use writing::write;
