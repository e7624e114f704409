//! A realistic morning: forty hosts ask and answer for five minutes while two senders send three thousand packets to them.
use crate::captures::{FILE_HEADER, put_head};
use crate::command::{BESIDE, HOST, report_of, script_and_capture};
use link_codec::{Arp, write_arp, write_eth};
use nb_base::Mac;
use std::alloc::{AllocError, Global};
use std::fmt::Write;
use std::test::Fail;

const HOST_MAC: Mac = Mac([2, 0, 0, 0, 0, 2]);

const EVERYONE: Mac = Mac([0xff; 6]);

const HOST_ADDRESS: u32 = 0x0a00_0002;

/// The address of a host, by its number.
fn address_of(host: u8) -> u32 {
    0x0a00_000a + u32::from(host)
}

/// The link address of a host: that of the family 1, and later of 2 for the first two.
fn mac_of(family: u8, host: u8) -> Mac {
    Mac([2, 0, 0, 0, family, host])
}

/// A record of an ARP packet, whose frame has 42 bytes.
fn put_arp(file: &mut Vec<u8>, millis: u32, dst: &Mac, arp: &Arp) -> Result<(), AllocError> {
    let mut header = [0; 14];
    let mut body = [0; 28];
    write_eth(&mut header, dst, &arp.sha, 0x0806);
    write_arp(&mut body, arp);
    put_head(file, millis, &42u32.to_be_bytes())?;
    file.extend_from_slice(&header)?;
    file.extend_from_slice(&body)
}

/// A host asks all for the table's host.
fn put_request(file: &mut Vec<u8>, millis: u32, family: u8, host: u8) -> Result<(), AllocError> {
    let request = Arp {
        op: 1,
        sha: mac_of(family, host),
        spa: address_of(host),
        tha: Mac([0; 6]),
        tpa: HOST_ADDRESS,
    };
    put_arp(file, millis, &EVERYONE, &request)
}

/// A host answers the table's host.
fn put_reply(file: &mut Vec<u8>, millis: u32, host: u8) -> Result<(), AllocError> {
    let reply = Arp {
        op: 2,
        sha: mac_of(1, host),
        spa: address_of(host),
        tha: HOST_MAC,
        tpa: HOST_ADDRESS,
    };
    put_arp(file, millis, &HOST_MAC, &reply)
}

/// 402 records: a request of each host, nine replies of each, and a request of two hosts at new link addresses.
fn morning(alloc: Global) -> Result<Vec<u8>, AllocError> {
    let mut file = FILE_HEADER.to_vec(alloc)?;
    for host in 0..40u8 {
        put_request(&mut file, 100 * u32::from(host), 1, host)?;
    }
    for round in 0..9u8 {
        for host in 0..40u8 {
            put_reply(
                &mut file,
                10_001 + 100 * u32::from(host) + 35_011 * u32::from(round),
                host,
            )?;
        }
    }
    for host in 0..2u8 {
        put_request(&mut file, 305_000, 2, host)?;
    }
    Ok(file)
}

/// Three thousand packets of two senders, to one host after the other, and a look.
fn packets(alloc: Global) -> Result<String, AllocError> {
    let mut text = String::from_str(alloc, HOST)?;
    text.push_str("senders 2\n")?;
    for number in 0..3_000u32 {
        let at = 5_000 + 100 * number;
        let sender = 1 + number % 2;
        let host = 10 + number % 40;
        writeln!(
            text,
            "@{at} send {sender} 10.0.0.{host} 5a5a5a5a5a5a5a5a5a5a5a5a5a5a5a5a5a5a5a5a"
        )?;
    }
    text.push_str("@310000 neigh show\n")?;
    Ok(text)
}

/// The end of the report: all packets went out, the first two hosts are stale at their new link addresses and the others reachable.
fn end_of_report(alloc: Global) -> Result<String, AllocError> {
    let mut text = String::from_str(
        alloc,
        "marks 0\nfates sent 3000 fast 0 dropped 0 waiting 0\ntable 40\n",
    )?;
    for host in 0..40u8 {
        let (family, state) = if host < 2 {
            (2, "STALE")
        } else {
            (1, "REACHABLE")
        };
        let last = 10 + u32::from(host);
        let mac = mac_of(family, host);
        writeln!(text, "10.0.0.{last} dev eth0 lladdr {mac} {state}")?;
    }
    text.push_str("proxies 0\nend\n")?;
    Ok(text)
}

/// How many lines of the report have this part.
fn lines_with(report: &str, part: &str) -> usize {
    report
        .lines()
        .filter(|line| line.split_once(part).is_some())
        .count()
}

/// Parts of lines in the report, and how many lines have each.
const ONE_BUCKET: &[(&'static str, usize)] = &[
    ("bucket 0 lines 4413", 1),
    ("  solicit ", 360),
    (" frame arp tx ", 42),
    (" - timer ", 1000),
    (" - sweep ", 10),
    ("  entry ", 40),
];

const BUCKETS_OF_64: &[(&'static str, usize)] = &[
    ("bucket 9 lines 11", 1),
    ("bucket 10 lines 122", 1),
    ("  seen ", 680),
    ("  solicit ", 360),
    (" frame arp tx ", 42),
    (" - timer ", 1000),
    (" - sweep ", 640),
    (" -> counted ", 64),
    ("  entry ", 40),
];

/// The first part that another number of the text's lines have.
fn first_other_count(text: &str, counts: &[(&'static str, usize)]) -> Option<&'static str> {
    for (part, count) in counts {
        if lines_with(text, part) != *count {
            return Some(*part);
        }
    }
    None
}

/// The first part that another number of the report's lines have, or the report's end if that is another.
fn first_wrong_in(
    alloc: Global,
    report: &[u8],
    counts: &[(&'static str, usize)],
) -> Result<Option<&'static str>, Fail> {
    let text = str::from_utf8(report)?;
    let end = end_of_report(alloc)?;
    if !text.ends_with(end.as_str()) {
        return Ok(Some("the end"));
    }
    Ok(first_other_count(text, counts))
}

/// The first thing that the morning's report has otherwise.
fn first_wrong_part(
    rt: &HostRuntime,
    alloc: Global,
    words: &str,
    counts: &[(&'static str, usize)],
) -> Result<Option<&'static str>, Fail> {
    let script = packets(alloc)?;
    let inputs = script_and_capture(alloc, script.as_str(), morning(alloc)?, &[])?;
    match report_of(rt, alloc, words, inputs, 1_048_576)? {
        None => Ok(Some("the status")),
        Some(report) => first_wrong_in(alloc, report.bytes(), counts),
    }
}

const BESIDE_64: &str = "--script s --capture c --buckets=64";

#[test]
fn realistic_morning(rt: HostRuntime) -> Result<(), Fail> {
    let alloc = rt.alloc();
    assert_eq!(rt; first_wrong_part(&rt, alloc, BESIDE, ONE_BUCKET)?, None);
    Ok(())
}

#[test]
fn realistic_morning_over_64_buckets(rt: HostRuntime) -> Result<(), Fail> {
    let alloc = rt.alloc();
    assert_eq!(rt;
        first_wrong_part(&rt, alloc, BESIDE_64, BUCKETS_OF_64)?,
        None
    );
    Ok(())
}
