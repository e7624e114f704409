//! What a host makes of the frames that it hears: their classes, the replies that go out at once, what is learnt of neighbours, and the requests for proxied addresses.
#![tactic(auto)]

mod answers;
mod content;
mod heard;
mod learning;
mod request;

pub use answers::answer;
pub use content::{Content, read_content};
pub use heard::{Heard, NoProxies, Proxies, hear, operation};
