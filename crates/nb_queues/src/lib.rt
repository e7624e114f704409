//! Queues of what waits for a neighbour, and of what waits for an answer.
#![tactic(auto)]

mod proxy_table;
mod request;
mod wait_queue;

pub use proxy_table::ProxyTable;
pub use request::{ProxyFull, ProxyJob, ProxyRequest};
pub use wait_queue::WaitQueue;
