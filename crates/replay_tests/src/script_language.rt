use nb_base::{Bytes, Key, Mac, Moment, Nud, Op};
use neigh_script::{Script, ScriptFail, ScriptItem, read, write};
use std::alloc::Global;
use std::process::Abort;
use std::test::Fail;

/// The line and the number of the refusal, or none.
fn refusal(alloc: Global, text: &[u8]) -> Result<Option<(u32, u8)>, Fail> {
    match read(alloc, text) {
        Ok(_) => Ok(None),
        Err(ScriptFail::Refused { line, why }) => Ok(Some((line, why.number()))),
        Err(ScriptFail::Memory) => Err("memory".into()),
    }
}

/// What a row of a table says: the number of the refusal, 0 for none, and the line.
fn row_of(row: &str) -> Result<(u8, &str), Fail> {
    let (number, line) = row.split_once(' ').ok_or("a number and a line")?;
    Ok((number.parse()?, line))
}

/// Reads each row's line below a head, as the line of this number.
fn check_rows(
    rt: &impl Abort,
    alloc: Global,
    head: &str,
    place: u32,
    rows: &str,
) -> Result<(), Fail> {
    for row in rows.lines() {
        let (number, line) = row_of(row)?;
        let text = format!(in alloc; "{head}{line}\n")?;
        let expected = if number == 0 {
            None
        } else {
            Some((place, number))
        };
        assert_eq!(rt; refusal(alloc, text.as_bytes())?, expected, "{row}");
    }
    Ok(())
}

const HOST: &str = "host dev eth0 lladdr 02:00:00:00:00:02 inet 10.0.0.2 inet6 fe80::2\n";

/// The first line of a script.
const FIRST_LINES: &str = "\
0 host dev eth0 lladdr 02:00:00:00:00:02 inet 10.0.0.2 inet6 fe80::2
0 host dev eth0 lladdr 2:0:0:0:0:2
0 host dev e.t_h-0 lladdr 2:0:0:0:0:F inet6 FE80:0:0:0:0:0:0:2
0 host\tdev  eth0 \tlladdr 2:0:0:0:0:2 inet 0.0.0.0 \t
3 hosts dev eth0 lladdr 2:0:0:0:0:2
3 host
3 host eth0
3 host device eth0 lladdr 2:0:0:0:0:2
3 host dev
3 host dev abcdefghijklmnop lladdr 2:0:0:0:0:2
3 host dev eth/0 lladdr 2:0:0:0:0:2
3 host dev eth0
3 host dev eth0 mac 2:0:0:0:0:2
3 host dev eth0 lladdr
5 host dev eth0 lladdr 2:0:0:0:2
5 host dev eth0 lladdr 02-00-00-00-00-02
3 host dev eth0 lladdr 2:0:0:0:0:2 inet
4 host dev eth0 lladdr 2:0:0:0:0:2 inet 10.0.0.256
4 host dev eth0 lladdr 2:0:0:0:0:2 inet fe80::2
3 host dev eth0 lladdr 2:0:0:0:0:2 inet6
4 host dev eth0 lladdr 2:0:0:0:0:2 inet6 10.0.0.2
4 host dev eth0 lladdr 2:0:0:0:0:2 inet6 fe80::2%eth0
3 host dev eth0 lladdr 2:0:0:0:0:2 inet6 fe80::2 inet 10.0.0.2
3 host dev eth0 lladdr 2:0:0:0:0:2 inet 10.0.0.2 inet 10.0.0.3
3 host dev eth0 lladdr 2:0:0:0:0:2 inet 10.0.0.2 up
11 @0 neigh show
11 @x
3 frob
";

/// A line of the head below the host line.
const HEAD_LINES: &str = "\
0 # host
0 #@0
0 \t
0 senders 1
0 senders 0016
8 senders 0
8 senders 17
8 senders two
8 senders 00000000001
3 senders
3 senders 2 3
0 param gc_thresh1 1
0 param gc_thresh2 65536
10 param gc_thresh3 0
10 param gc_thresh1 65537
0 param gc_interval 10000
10 param gc_interval 9999
10 param gc_interval 10000001
10 param gc_stale_time 9
0 param locktime 10000000
10 param retrans_time 9999999999
10 param base_reachable_time 9
10 param delay_first_probe_time 10000001
0 param mcast_solicit 0
10 param ucast_solicit 11
0 param proxy_delay 10
10 param proxy_qlen 1025
0 param unres_qlen_bytes 256
0 param unres_qlen_bytes 16448
10 param unres_qlen_bytes 255
10 param unres_qlen_bytes 16449
3 param unres_qlen 3
10 param unres_qlen_bytes 1x
3 param
3 param unres_qlen_bytes
3 param unres_qlen_bytes 256 2
10 param unres_qlen_bytes 1 2
3 param gc_thresh4 x
13 host
13 host dev eth0 lladdr 2:0:0:0:0:2
3 param# gc_thresh1 1
";

/// An item's line below the host line and two senders.
const ITEM_LINES: &str = "\
0 @0 neigh add 10.0.0.1
0 @0 neigh add 10.0.0.1 lladdr 0:11:22:33:44:55 dev eth0 nud stale
0 @0 neigh add fe80::1 nud reachable lladdr 0:11:22:33:44:55 dev eth0
0 @0 neigh change 10.0.0.1 nud noarp
0 @0 neigh replace FE80::1 lladdr 0:11:22:33:44:55 nud permanent
0 @0 neigh del 10.0.0.1
0 @0 neigh del 10.0.0.1 dev eth0
0 @0 neigh add proxy 10.0.0.9 dev eth0
0 @0 neigh del proxy fe80::9
0 @0 neigh show
0 @0 neigh show dev eth0
0 @0 neigh flush
0 @0 neigh flush all
0 @0 neigh flush dev eth0
0 @0 neigh flush all dev eth0
0 @2592000000 confirm 10.0.0.1
0 @0000000005 send 2 10.0.0.1 aBcD
2 @2592000001 confirm 10.0.0.1
2 @
2 @x neigh show
2 @-1 neigh show
2 @99999999999 neigh
3 @0
3 @0 neighbour show
3 @0 neigh
3 @0 neigh append 10.0.0.1
3 @0 neigh add
4 @0 neigh add 10.0.0.256
4 @0 neigh add 10.0.0.01
4 @0 neigh add 10.0.0.2
4 @0 neigh add 0.0.0.0
4 @0 neigh add 224.0.0.1
4 @0 neigh add 255.255.255.255
4 @0 neigh add fe80::2
4 @0 neigh add ::
4 @0 neigh add ff02::1
4 @0 neigh add lladdr 0:11:22:33:44:55
3 @0 neigh add 10.0.0.1 lladdr
5 @0 neigh add 10.0.0.1 lladdr 0:11:22:33:44
3 @0 neigh add 10.0.0.1 lladdr 0:11:22:33:44:55 lladdr x
3 @0 neigh add 10.0.0.1 dev
9 @0 neigh add 10.0.0.1 dev eth1
3 @0 neigh add 10.0.0.1 dev eth0 dev eth1
3 @0 neigh add 10.0.0.1 nud
6 @0 neigh add 10.0.0.1 nud delay
6 @0 neigh add 10.0.0.1 nud PERMANENT
3 @0 neigh add 10.0.0.1 nud stale nud stale
3 @0 neigh add 10.0.0.1 mtu 1500
4 @0 neigh change proxy 10.0.0.1
4 @0 neigh replace proxy 10.0.0.1
6 @0 neigh change 10.0.0.1 nud none
5 @0 neigh replace 10.0.0.1 lladdr x nud none
3 @0 neigh add proxy
4 @0 neigh add proxy 10.0.0.2
3 @0 neigh add proxy 10.0.0.9 lladdr 0:11:22:33:44:55
9 @0 neigh del proxy 10.0.0.9 dev eth1
3 @0 neigh del
4 @0 neigh del all
3 @0 neigh del 10.0.0.1 dev
9 @0 neigh del 10.0.0.1 dev lo
3 @0 neigh del 10.0.0.1 lladdr 0:11:22:33:44:55
3 @0 neigh del 10.0.0.1 dev eth0 eth0
3 @0 neigh show eth0
9 @0 neigh show dev eth1
3 @0 neigh show dev eth0 all
3 @0 neigh flush all all
9 @0 neigh flush all dev eth00
3 @0 neigh flush dev eth0 all
3 @0 confirm
4 @0 confirm 10.0.0.2
3 @0 confirm 10.0.0.1 dev eth0
3 @0 send
8 @0 send 0 10.0.0.1 00
8 @0 send 3 10.0.0.1 00
8 @0 send one 10.0.0.1 00
3 @0 send 1
4 @0 send 1 10.0.0.999 00
3 @0 send 1 10.0.0.1
7 @0 send 1 10.0.0.1 0
7 @0 send 1 10.0.0.1 0g
3 @0 send 1 10.0.0.1 00 00
3 @0 receive 10.0.0.1
0 @7 neigh show
";

/// A line below an item at 5 ms.
const LATER_LINES: &str = "\
0 @5 neigh show
0 # param
2 @4 neigh show
2 @4 frob
13 senders 2
13 senders
13 param locktime 10
13 host dev eth0 lladdr 2:0:0:0:0:2
3 sender
";

#[test]
fn lines_and_their_refusals(rt: HostRuntime) -> Result<(), Fail> {
    let two_senders = format!(in rt.alloc(); "{HOST}senders 2\n")?;
    let below_an_item = format!(in rt.alloc(); "{HOST}@5 confirm 10.0.0.1\n")?;
    check_rows(&rt, rt.alloc(), "", 1, FIRST_LINES)?;
    check_rows(&rt, rt.alloc(), HOST, 2, HEAD_LINES)?;
    check_rows(&rt, rt.alloc(), &two_senders, 3, ITEM_LINES)?;
    check_rows(&rt, rt.alloc(), &below_an_item, 3, LATER_LINES)
}

#[test]
fn show_before_host_other_device_and_empty_script(rt: HostRuntime) -> Result<(), Fail> {
    let alloc = rt.alloc();
    assert_eq!(rt; refusal(alloc, b"@0 neigh show\n")?, Some((1, 11)));
    let other_device = format!(in alloc; "{HOST}@0 neigh add 10.0.0.1 dev eth1\n")?;
    assert_eq!(rt; refusal(alloc, other_device.as_bytes())?, Some((2, 9)));
    assert_eq!(rt; refusal(alloc, b"")?, Some((1, 11)));
    assert_eq!(rt; refusal(alloc, b"# a comment\n\n")?, Some((3, 11)));
    Ok(())
}

/// Where a line ends, and which signs are not UTF-8.
#[test]
fn ends_of_lines_and_bytes(rt: HostRuntime) -> Result<(), Fail> {
    let alloc = rt.alloc();
    let with_returns =
        b"# \r\r\nhost dev eth0 lladdr 2:0:0:0:0:2\r\n@0 neigh show\r\n@0 neigh flush";
    assert_eq!(rt; refusal(alloc, with_returns)?, None);
    let return_at_the_end = b"host dev eth0 lladdr 2:0:0:0:0:2\r\n@0 neigh show\r";
    assert_eq!(rt; refusal(alloc, return_at_the_end)?, Some((2, 3)));
    let two_returns = b"host dev eth0 lladdr 2:0:0:0:0:2\r\r\n";
    assert_eq!(rt; refusal(alloc, two_returns)?, Some((1, 5)));
    assert_eq!(rt; refusal(alloc, b"# \xff\n")?, Some((1, 1)));
    assert_eq!(rt; refusal(alloc, b"x \xc3\nhost")?, Some((1, 1)));
    Ok(())
}

/// A head, and so many times a line.
fn repeated(alloc: Global, head: &str, line: &str, count: usize) -> Result<String, Fail> {
    let mut text = String::from_str(alloc, head)?;
    for _ in 0..count {
        text.push_str(line)?;
    }
    Ok(text)
}

#[test]
fn most_lines_shows_and_bytes(rt: HostRuntime) -> Result<(), Fail> {
    let alloc = rt.alloc();
    let shows = repeated(alloc, HOST, "@0 neigh show\n", 32)?;
    assert_eq!(rt; refusal(alloc, shows.as_bytes())?, None);
    let too_many = repeated(alloc, &shows, "@0 neigh show all\n", 1)?;
    assert_eq!(rt; refusal(alloc, too_many.as_bytes())?, Some((34, 12)));
    let lines = repeated(alloc, HOST, "#\n", 131_071)?;
    assert_eq!(rt; refusal(alloc, lines.as_bytes())?, None);
    let one_more = repeated(alloc, &lines, "#\n", 1)?;
    assert_eq!(rt; refusal(alloc, one_more.as_bytes())?, Some((131_073, 12)));
    Ok(())
}

#[test]
fn payload_of_1500_and_1501_bytes(rt: HostRuntime) -> Result<(), Fail> {
    let alloc = rt.alloc();
    let head = format!(in alloc; "{HOST}@0 send 1 10.0.0.1 ")?;
    let most = repeated(alloc, &head, "00", 1500)?;
    assert_eq!(rt; refusal(alloc, most.as_bytes())?, None);
    let too_long = repeated(alloc, &head, "00", 1501)?;
    assert_eq!(rt; refusal(alloc, too_long.as_bytes())?, Some((2, 7)));
    Ok(())
}

/// A script of all that a later line replaces, and one packet.
const REPLACED: &str = "\
senders 3
param locktime 10
host dev eth0 lladdr 02:00:00:00:00:02 inet 10.0.0.2
senders 2
param locktime 20
@7 send 2 10.0.0.1 0A0b
@7 neigh add 10.0.0.1 lladdr 0:11:22:33:44:55
@9 frob
";

fn read_without_last_line(alloc: Global) -> Result<Script, Fail> {
    let text = REPLACED.strip_suffix("@9 frob\n").ok_or("a last line")?;
    read(alloc, text.as_bytes()).map_err(|_| "a script".into())
}

fn is_packet(item: Option<&ScriptItem>) -> bool {
    match item {
        Some(
            ScriptItem::Send {
                at,
                sender,
                key,
                payload,
            },
        ) => {
            *at == Moment(7)
                && *sender == 2
                && *key == Key::V4(0x0a00_0001)
                && payload.as_slice() == [10, 11].as_slice()
        }
        _ => false,
    }
}

fn is_entry(item: Option<&ScriptItem>) -> bool {
    let entry = Op::Add {
        key: Key::V4(0x0a00_0001),
        mac: Some(Mac([0, 0x11, 0x22, 0x33, 0x44, 0x55])),
        nud: Nud::Permanent,
    };
    match item {
        Some(ScriptItem::Neigh { at, op }) => *at == Moment(7) && *op == entry,
        _ => false,
    }
}

#[test]
fn later_lines_replace_earlier_ones(rt: HostRuntime) -> Result<(), Fail> {
    let alloc = rt.alloc();
    assert_eq!(rt; refusal(alloc, REPLACED.as_bytes())?, Some((8, 3)));
    let script = read_without_last_line(alloc)?;
    assert_eq!(rt; script.senders, 2);
    assert_eq!(rt; script.params.locktime, 20);
    assert_eq!(rt; script.items.len(), 2);
    assert!(rt; is_packet(script.items.get(0)), "the packet");
    assert!(rt; is_entry(script.items.get(1)), "the entry");
    Ok(())
}

/// A script of every form, as it is written.
const WRITTEN: &str = "\
host dev eth0 lladdr 02:00:00:00:00:02 inet 10.0.0.2 inet6 fe80::2
senders 2
param gc_thresh1 128
param gc_thresh2 512
param gc_thresh3 1024
param gc_interval 30000
param gc_stale_time 60000
param locktime 1000
param retrans_time 1000
param base_reachable_time 30000
param delay_first_probe_time 5000
param mcast_solicit 3
param ucast_solicit 3
param proxy_delay 800
param proxy_qlen 64
param unres_qlen_bytes 4096
@0 neigh add 10.0.0.1 lladdr 00:11:22:33:44:55 dev eth0 nud permanent
@0 neigh add 10.0.0.3 dev eth0 nud noarp
@1 neigh change fe80::1 lladdr 00:11:22:33:44:55 dev eth0 nud reachable
@1 neigh replace 10.0.0.3 dev eth0 nud stale
@2 neigh del 10.0.0.1 dev eth0
@2 neigh add proxy 10.0.0.9 dev eth0
@2 neigh del proxy fe80::9 dev eth0
@3 neigh show dev eth0
@3 neigh flush dev eth0
@4 confirm 10.0.0.1
@5 send 1 10.0.0.1 00ff
@2592000000 send 2 fe80::1 a5
";

/// The same script in other words.
const LOOSE: &str = "\
# a comment
senders 7
host dev eth0 lladdr 2:0:0:0:0:2 inet 10.0.0.2 inet6 FE80::2\r
senders 02

param locktime 01000
@0 neigh add 10.0.0.1 lladdr 0:11:22:33:44:55
@0\tneigh  add 10.0.0.3 nud noarp dev eth0
@1 neigh change fe80:0::1 nud reachable lladdr 0:11:22:33:44:55
@01 neigh replace 10.0.0.3 nud stale
@2 neigh del 10.0.0.1
@2 neigh add proxy 10.0.0.9
@2 neigh del proxy fe80::9 dev eth0
@3 neigh show
@3 neigh flush all
@4 confirm 10.0.0.1
@5 send 1 10.0.0.1 00FF
@2592000000 send 2 fe80::1 A5";

/// The written form of what a text says.
fn rewritten(alloc: Global, text: &str) -> Result<Bytes, Fail> {
    match read(alloc, text.as_bytes()) {
        Ok(script) => Ok(write(alloc, &script)?),
        Err(_) => Err("a script".into()),
    }
}

#[test]
fn every_form_is_written_and_read_again(rt: HostRuntime) -> Result<(), Fail> {
    let alloc = rt.alloc();
    for text in [WRITTEN, LOOSE] {
        let written = rewritten(alloc, text)?;
        assert_eq!(rt; written.as_slice(), WRITTEN.as_bytes());
    }
    Ok(())
}
