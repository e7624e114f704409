//! Captures that are refused, and one whose stamps fall.
use crate::captures::bytes_of;
use crate::cases::rows_of;
use crate::command::{BESIDE, HOST, ending_of, ends, replays, script_and_capture};
use std::alloc::Global;
use std::test::Fail;

/// The refusal's number and place, a bar, and the file.
const REFUSED_FILES: &str = "\
1 at 0|
1 at 0|a1b2c3d400020004000000000000000000040000000000
2 at 0|a1b2c3d50002000400000000000000000004000000000001
3 at 4|a1b2c3d40001000400000000000000000004000000000001
3 at 4|a1b2c3d40002000300000000000000000004000000000001
4 at 20|a1b2c3d40002000400000000000000000004000000000071
4 at 20|a1b2c3d40002000400000000000000000004000000000101
5 at 24|a1b2c3d4000200040000000000000000000400000000000100000000000000000000003c0000003c0000000000000000000000000000000000000000000000000000000000000000000000000000000000000000000000000000000000000000000000
5 at 24|a1b2c3d40002000400000000000000000004000000000001000000000000000000000000000000
6 at 24|a1b2c3d400020004000000000000000000040000000000010000000000000000000400010004000100000000
5 at 54|a1b2c3d4000200040000000000000000000400000000000100000000000000000000000e0000000e020000000002001122334455080000000000000000000000000e0000000e02000000000200112233445508
8 at 40|a1b2c3d400020004000000000000000000040000000000010000000700000000000000000000000000278d07000003e80000000000000000
3 at 4|4d3cb2a10002000400000000000000000004000000000001
";

/// A little-endian file of nanoseconds with frames at 10 s and 500, 9 s, 10 s and 501.999999, and 10 s and 501 ms.
const FALLING_STAMPS: &str =
    "4d3cb2a102000400000000000000000000000000010000000a0000000065cd1d0e0000000e000000020000000002001122334455080009000000000000000e0000000e00000002000000000200112233445508000a0000007fe9eb1d0e0000000e00000002000000000200112233445508000a00000040a7dc1d0e0000000e0000000200000000020011223344550800";

const FALLING_REPORT: &str = "\
neigh 1 mode inline buckets 1 senders 1 window 50
host dev eth0 lladdr 02:00:00:00:00:02 inet 10.0.0.2
bucket 0 lines 0
host lines 4
1 0 frame other
2 0 frame other
3 1 frame other
4 1 frame other
sender 1 items 0
marks 0
fates sent 0 fast 0 dropped 0 waiting 0
table 0
proxies 0
end
";

/// Whether the file is refused as a capture so. The capture is checked before the script, which has no host line.
fn is_refused(rt: &HostRuntime, alloc: Global, refusal: &str, digits: &str) -> Result<bool, Fail> {
    let inputs = script_and_capture(alloc, "", bytes_of(alloc, digits)?, &[])?;
    let line = format!(in alloc; "neigh: capture refused: {refusal}\n")?;
    Ok(ends(rt, alloc, BESIDE, inputs, &ending_of(4, &line))?)
}

/// The first row whose file isn't refused so, or that is no row.
fn first_taken(
    rt: &HostRuntime,
    alloc: Global,
    rows: &'static str,
) -> Result<Option<&'static str>, Fail> {
    for row in rows.lines() {
        let Some((refusal, digits)) = row.split_once('|') else {
            return Ok(Some(row));
        };
        if !is_refused(rt, alloc, refusal, digits)? {
            return Ok(Some(row));
        }
    }
    Ok(None)
}

#[test]
fn cut_captures_and_an_empty_one(rt: HostRuntime) -> Result<(), Fail> {
    assert_eq!(rt; rows_of(REFUSED_FILES), 13);
    assert_eq!(rt; first_taken(&rt, rt.alloc(), REFUSED_FILES)?, None);
    Ok(())
}

#[test]
fn moments_never_fall(rt: HostRuntime) -> Result<(), Fail> {
    let alloc = rt.alloc();
    let inputs = script_and_capture(alloc, HOST, bytes_of(alloc, FALLING_STAMPS)?, &[])?;
    assert!(rt; replays(&rt, alloc, BESIDE, inputs, FALLING_REPORT)?);
    Ok(())
}
