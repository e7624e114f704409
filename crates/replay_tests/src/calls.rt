//! Calls of the command over a script alone. The table of calls is cut as `cases.rt` says, and a call is a status, what fails, and words.
use crate::cases::{Case, HEAD, call_of, case_of, count_of};
use crate::command::{
    Ending, HOST, NAMED, TEN_BYTES, USAGE, ending_of, ends, ends_into, ends_without_words, joined,
    report_of, script_alone,
};
use nb_base::{Bytes, Items};
use nb_io::MemorySink;
use neigh_replay::NoWords;
use std::alloc::{AllocError, Global};
use std::fmt::Write;
use std::test::Fail;

fn table() -> &'static str {
    CALLS
}

/// Calls over one file `s`. What a call writes goes to standard output at the status 0, and to standard error at any other.
const CALLS: &str = "\
== host_alone: 0 0 --script s
host dev eth0 lladdr 02:00:00:00:00:02 inet 10.0.0.2
-- report
neigh 1 mode inline buckets 1 senders 1 window 50
host dev eth0 lladdr 02:00:00:00:00:02 inet 10.0.0.2
bucket 0 lines 0
host lines 0
sender 1 items 0
marks 0
fates sent 0 fast 0 dropped 0 waiting 0
table 0
proxies 0
end
== permanent_entry_and_packet: 0 0 --script s
host dev eth0 lladdr 02:00:00:00:00:02 inet 10.0.0.2
@0 neigh add 10.0.0.1 dev eth0 lladdr 00:11:22:33:44:55 nud permanent
@5 send 1 10.0.0.1 4500
-- report
neigh 1 mode inline buckets 1 senders 1 window 50
host dev eth0 lladdr 02:00:00:00:00:02 inet 10.0.0.2
bucket 0 lines 2
0 0 32 add 10.0.0.1 00:11:22:33:44:55 permanent -> done
1 5 33 send 10.0.0.1 -> sent
  tx 33 00112233445502000000000208004500
host lines 1
1 0 neigh op 0 0 done
sender 1 items 1
1 5 inline 1 sent
marks 0
fates sent 1 fast 0 dropped 0 waiting 0
table 1
10.0.0.1 dev eth0 lladdr 00:11:22:33:44:55 PERMANENT
proxies 0
end
== a look at an empty table: 0 0 --script s
host dev eth0 lladdr 02:00:00:00:00:02 inet 10.0.0.2
@0 neigh show
-- report
neigh 1 mode inline buckets 1 senders 1 window 50
host dev eth0 lladdr 02:00:00:00:00:02 inet 10.0.0.2
bucket 0 lines 1
0 0 32 show -> counted 0
host lines 1
1 0 neigh op 0 0 counted 0
sender 1 items 0
marks 0
fates sent 0 fast 0 dropped 0 waiting 0
table 0
proxies 0
end
== a packet before its entry: 0 0 --script s
host dev eth0 lladdr 02:00:00:00:00:02 inet 10.0.0.2
@5 send 1 10.0.0.1 4500
@6 neigh add 10.0.0.1 lladdr 00:11:22:33:44:55
-- report
neigh 1 mode inline buckets 1 senders 1 window 50
host dev eth0 lladdr 02:00:00:00:00:02 inet 10.0.0.2
bucket 0 lines 2
0 5 33 send 10.0.0.1 -> waits
  solicit ffffffffffff020000000002080600010800060400010200000000020a0000020000000000000a000001
  wait 33
1 6 32 add 10.0.0.1 00:11:22:33:44:55 permanent -> exists
host lines 1
1 6 neigh op 0 1 exists
sender 1 items 1
1 5 inline 0 waits
marks 0
fates sent 0 fast 0 dropped 0 waiting 1
table 1
10.0.0.1 dev eth0 INCOMPLETE
proxies 0
end
== a proxied address: 0 0 --script s
host dev eth0 lladdr 02:00:00:00:00:02 inet 10.0.0.2
@0 neigh add proxy 10.0.0.1
-- report
neigh 1 mode inline buckets 1 senders 1 window 50
host dev eth0 lladdr 02:00:00:00:00:02 inet 10.0.0.2
bucket 0 lines 0
host lines 1
1 0 proxy done
sender 1 items 0
marks 0
fates sent 0 fast 0 dropped 0 waiting 0
table 0
proxies 1
10.0.0.1 dev eth0 proxy
end
== a packet to an IPv6 address: 0 0 --script s
host dev eth0 lladdr 02:00:00:00:00:02 inet6 2001:db8::2
@0 send 1 2001:db8::1 00
-- report
neigh 1 mode inline buckets 1 senders 1 window 50
host dev eth0 lladdr 02:00:00:00:00:02 inet6 2001:db8::2
bucket 0 lines 1
0 0 33 send 2001:db8::1 -> waits
  solicit 3333ff00000102000000000286dd6000000000203aff20010db8000000000000000000000002ff0200000000000000000001ff00000187001c270000000020010db80000000000000000000000010101020000000002
  wait 33
host lines 0
sender 1 items 1
1 0 inline 0 waits
marks 0
fates sent 0 fast 0 dropped 0 waiting 1
table 1
2001:db8::1 dev eth0 INCOMPLETE
proxies 0
end
== another sweep interval: 0 0 --script s
host dev eth0 lladdr 02:00:00:00:00:02 inet 10.0.0.2
param gc_interval 20000
-- report
neigh 1 mode inline buckets 1 senders 1 window 50
host dev eth0 lladdr 02:00:00:00:00:02 inet 10.0.0.2
bucket 0 lines 0
host lines 0
sender 1 items 0
marks 0
fates sent 0 fast 0 dropped 0 waiting 0
table 0
proxies 0
end
== four senders with equal moments: 0 0 --window=70 --script s
host dev eth0 lladdr 02:00:00:00:00:02 inet 10.0.0.2
senders 4
@0 neigh add 10.0.0.1 lladdr 00:11:22:33:44:55
@0 send 3 10.0.0.1 0a
@0 send 1 10.0.0.1 0b
@5 send 4 10.0.0.1 0c
@5 neigh add 10.0.0.1 lladdr 00:11:22:33:44:66
@5 neigh add 10.0.0.3 lladdr 00:11:22:33:44:77
@5 send 2 10.0.0.3 0d
@7 send 1 10.0.0.3 0e
-- report
neigh 1 mode inline buckets 1 senders 4 window 70
host dev eth0 lladdr 02:00:00:00:00:02 inet 10.0.0.2
bucket 0 lines 8
0 0 32 add 10.0.0.1 00:11:22:33:44:55 permanent -> done
1 0 33 send 10.0.0.1 -> sent
  tx 33 00112233445502000000000208000b
2 0 35 send 10.0.0.1 -> sent
  tx 35 00112233445502000000000208000a
3 5 64 add 10.0.0.1 00:11:22:33:44:66 permanent -> exists
4 5 96 add 10.0.0.3 00:11:22:33:44:77 permanent -> done
5 5 34 send 10.0.0.3 -> sent
  tx 34 00112233447702000000000208000d
6 5 36 send 10.0.0.1 -> sent
  tx 36 00112233445502000000000208000c
7 7 65 send 10.0.0.3 -> sent
  tx 65 00112233447702000000000208000e
host lines 3
1 0 neigh op 0 0 done
2 5 neigh op 0 3 exists
3 5 neigh op 0 4 done
sender 1 items 2
1 0 inline 1 sent
2 7 inline 7 sent
sender 2 items 1
1 5 inline 5 sent
sender 3 items 1
1 0 inline 2 sent
sender 4 items 1
1 5 inline 6 sent
marks 0
fates sent 5 fast 0 dropped 0 waiting 0
table 2
10.0.0.1 dev eth0 lladdr 00:11:22:33:44:55 PERMANENT
10.0.0.3 dev eth0 lladdr 00:11:22:33:44:77 PERMANENT
proxies 0
end
== show_before_host: 5 0 --script s
@0 neigh show
-- report
neigh: script refused: 11 at line 1
== other_device: 5 0 --script s
host dev eth0 lladdr 02:00:00:00:00:02 inet 10.0.0.2
@0 neigh add 10.0.0.1 dev eth1
-- report
neigh: script refused: 9 at line 2
== empty_script: 5 0 --script s
-- report
neigh: script refused: 11 at line 1
== 65 buckets: 2 0 --script s --buckets 65
host dev eth0 lladdr 02:00:00:00:00:02 inet 10.0.0.2
-- report
neigh: usage: neigh --script FILE [--capture FILE] [--mode inline|threads] [--window MS] [--buckets N] | neigh --generate NUMBER
== no_words: 2 0
host dev eth0 lladdr 02:00:00:00:00:02 inet 10.0.0.2
-- report
neigh: usage: neigh --script FILE [--capture FILE] [--mode inline|threads] [--window MS] [--buckets N] | neigh --generate NUMBER
== a name that begins with a dash: 2 0 --script -s
host dev eth0 lladdr 02:00:00:00:00:02 inet 10.0.0.2
-- report
neigh: usage: neigh --script FILE [--capture FILE] [--mode inline|threads] [--window MS] [--buckets N] | neigh --generate NUMBER
== a word too many: 2 0 --script s s
host dev eth0 lladdr 02:00:00:00:00:02 inet 10.0.0.2
-- report
neigh: usage: neigh --script FILE [--capture FILE] [--mode inline|threads] [--window MS] [--buckets N] | neigh --generate NUMBER
== failing open: 3 1 --script s
host dev eth0 lladdr 02:00:00:00:00:02 inet 10.0.0.2
-- report
neigh: cannot read s
== missing file: 3 0 --script t
host dev eth0 lladdr 02:00:00:00:00:02 inet 10.0.0.2
-- report
neigh: cannot read t
== failing read: 3 2 --script s
host dev eth0 lladdr 02:00:00:00:00:02 inet 10.0.0.2
-- report
neigh: cannot read s
";

/// Whether the call ends as it is to.
fn ends_so(rt: &HostRuntime, alloc: Global, case: &Case) -> Result<bool, AllocError> {
    let Some(call) = call_of(case.call) else {
        return Ok(false);
    };
    let script = joined(alloc, case.script, "")?;
    let inputs = script_alone(alloc, script, &[call.fails])?;
    let ending = ending_of(call.status, case.report);
    ends(rt, alloc, call.words, inputs, &ending)
}

/// The first case that ends otherwise, or the whole text of one that is no case.
fn first_other_end(
    rt: &HostRuntime,
    alloc: Global,
    table: &'static str,
) -> Result<Option<&'static str>, AllocError> {
    for text in table.split(HEAD).skip(1) {
        let Some(case) = case_of(text) else {
            return Ok(Some(text));
        };
        if !ends_so(rt, alloc, &case)? {
            return Ok(Some(case.name));
        }
    }
    Ok(None)
}

#[test]
fn calls_have_their_reports_statuses_and_lines(rt: HostRuntime) -> Result<(), Fail> {
    assert_eq!(rt; count_of(table()), 18);
    assert_eq!(rt; first_other_end(&rt, rt.alloc(), table())?, None);
    Ok(())
}

/// A sink that takes ten bytes and then fails has the report's first ten.
#[test]
fn failing_sink(rt: HostRuntime) -> Result<(), Fail> {
    let alloc = rt.alloc();
    let inputs = script_alone(alloc, joined(alloc, HOST, "")?, &[])?;
    let out = MemorySink::new(alloc, 4_096, 10, &[2])?;
    assert!(rt; ends_into(&rt, alloc, NAMED, inputs, out, &TEN_BYTES)?);
    Ok(())
}

/// A host line, and a packet of so many bytes.
fn packet_of(alloc: Global, len: usize) -> Result<Bytes, AllocError> {
    let mut text = String::from_str(alloc, HOST)?;
    text.push_str("@0 send 1 10.0.0.1 ")?;
    for _ in 0..len {
        text.push_str("00")?;
    }
    Ok(Items::from_vec(text.into_bytes()))
}

/// A packet that waits.
const WAITING_REPORT: &str = "\
neigh 1 mode inline buckets 1 senders 1 window 50
host dev eth0 lladdr 02:00:00:00:00:02 inet 10.0.0.2
bucket 0 lines 1
0 0 33 send 10.0.0.1 -> waits
  solicit ffffffffffff020000000002080600010800060400010200000000020a0000020000000000000a000001
  wait 33
host lines 0
sender 1 items 1
1 0 inline 0 waits
marks 0
fates sent 0 fast 0 dropped 0 waiting 1
table 1
10.0.0.1 dev eth0 INCOMPLETE
proxies 0
end
";

const WAITS: Ending<'static> = Ending {
    status: 0,
    out: WAITING_REPORT,
    err: "",
};

const TOO_LARGE_A_PAYLOAD: Ending<'static> = Ending {
    status: 5,
    out: "",
    err: "neigh: script refused: 7 at line 2\n",
};

/// Whether the call over a packet of so many bytes ends so.
fn packet_ends(
    rt: &HostRuntime,
    alloc: Global,
    len: usize,
    ending: &Ending,
) -> Result<bool, AllocError> {
    let inputs = script_alone(alloc, packet_of(alloc, len)?, &[])?;
    ends(rt, alloc, NAMED, inputs, ending)
}

#[test]
fn payload_of_1500_and_1501_bytes(rt: HostRuntime) -> Result<(), Fail> {
    assert!(rt; packet_ends(&rt, rt.alloc(), 1500, &WAITS)?);
    assert!(rt; packet_ends(&rt, rt.alloc(), 1501, &TOO_LARGE_A_PAYLOAD)?);
    Ok(())
}

/// A host line, and packets to so many addresses.
fn packets_to(alloc: Global, count: u32) -> Result<Bytes, AllocError> {
    let mut text = String::from_str(alloc, HOST)?;
    for number in 1..=count {
        writeln!(text, "@0 send 1 10.0.1.{number} 00")?;
    }
    Ok(Items::from_vec(text.into_bytes()))
}

#[test]
fn packets_to_200_addresses(rt: HostRuntime) -> Result<(), Fail> {
    let alloc = rt.alloc();
    let inputs = script_alone(alloc, packets_to(alloc, 200)?, &[])?;
    let report = report_of(&rt, alloc, NAMED, inputs, 65_536)?;
    assert!(rt; report.is_some());
    Ok(())
}

const TOO_LONG: Ending<'static> = Ending {
    status: 8,
    out: "",
    err: "neigh: too long: s\n",
};

#[test]
fn a_script_of_one_byte_more_is_too_long(rt: HostRuntime) -> Result<(), Fail> {
    let alloc = rt.alloc();
    let script = Items::from_vec(vec![in alloc; b'#'; 8_388_609]?);
    let inputs = script_alone(alloc, script, &[])?;
    assert!(rt; ends(&rt, alloc, NAMED, inputs, &TOO_LONG)?);
    Ok(())
}

const NOT_TEXT: Ending<'static> = Ending {
    status: 2,
    out: "",
    err: USAGE,
};

const NO_MEMORY: Ending<'static> = Ending {
    status: 1,
    out: "",
    err: "neigh: no memory\n",
};

fn fails_so(
    rt: &HostRuntime,
    alloc: Global,
    why: NoWords,
    ending: &Ending,
) -> Result<bool, AllocError> {
    let inputs = script_alone(alloc, joined(alloc, HOST, "")?, &[])?;
    ends_without_words(rt, alloc, why, inputs, ending)
}

#[test]
fn words_that_are_not_text_and_no_memory_for_words(rt: HostRuntime) -> Result<(), Fail> {
    assert!(rt; fails_so(&rt, rt.alloc(), NoWords::NotText, &NOT_TEXT)?);
    assert!(rt; fails_so(&rt, rt.alloc(), NoWords::Memory, &NO_MEMORY)?);
    Ok(())
}
