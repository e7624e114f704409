//! A queue of proxy requests that fills.
use crate::captures::capture_of;
use crate::command::{BESIDE, HOST, replays, script_and_capture};
use std::alloc::{AllocError, Global};
use std::fmt::Write;
use std::test::Fail;

/// 10.0.0.7 asks all for 10.0.0.9, at the first moment.
const REQUEST: &str =
    "0 ffffffffffff001122334455080600010800060400010011223344550a0000070000000000000a000009\n";

const ANSWER: &str =
    "001122334455020000000002080600010800060400020200000000020a0000090011223344550a000007";

/// The one bucket's journal: the requests of somebody whom the host doesn't know, and a look.
fn push_bucket(text: &mut String) -> Result<(), AllocError> {
    text.push_str("bucket 0 lines 66\n")?;
    for place in 0..65u32 {
        let id = 32 * (place + 2);
        writeln!(
            text,
            "{place} 0 {id} arp 10.0.0.7 00:11:22:33:44:55 keep stale -> ignored"
        )?;
    }
    text.push_str("65 1000 2144 show -> counted 0\n")
}

/// The host's journal: 64 requests that are queued, one that isn't, and 64 answers.
fn push_host(text: &mut String) -> Result<(), AllocError> {
    text.push_str("host lines 131\n1 0 proxy done\n")?;
    for place in 0..65u32 {
        let number = place + 2;
        let queued = if place < 64 { "proxied" } else { "proxyfull" };
        writeln!(text, "{number} 0 frame arp {queued} op 0 {place} ignored")?;
    }
    for _ in 0..64u32 {
        writeln!(text, "- 800 answer {ANSWER}")?;
    }
    text.push_str("67 1000 neigh op 0 65 counted 0\n")
}

fn report(alloc: Global) -> Result<String, AllocError> {
    let mut text = String::from_str(alloc, "neigh 1 mode inline buckets 1 senders 1 window 50\n")?;
    text.push_str(HOST)?;
    push_bucket(&mut text)?;
    push_host(&mut text)?;
    text.push_str("sender 1 items 0\nmarks 0\nfates sent 0 fast 0 dropped 0 waiting 0\n")?;
    text.push_str("table 0\nproxies 1\n10.0.0.9 dev eth0 proxy\nend\n")?;
    Ok(text)
}

/// A proxy, and a look a second later.
fn script(alloc: Global) -> Result<String, AllocError> {
    format!(in alloc; "{HOST}@0 neigh add proxy 10.0.0.9\n@1000 neigh show\n")
}

/// A capture of 65 requests.
fn requests(alloc: Global) -> Result<Vec<u8>, Fail> {
    let mut records = String::new(alloc);
    for _ in 0..65u32 {
        records.push_str(REQUEST)?;
    }
    capture_of(alloc, records.as_str())
}

#[test]
fn proxy_queue_of_64(rt: HostRuntime) -> Result<(), Fail> {
    let alloc = rt.alloc();
    let script = script(alloc)?;
    let inputs = script_and_capture(alloc, &script, requests(alloc)?, &[])?;
    let report = report(alloc)?;
    assert!(rt; replays(&rt, alloc, BESIDE, inputs, &report)?);
    Ok(())
}
