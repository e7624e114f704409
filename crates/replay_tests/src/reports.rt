//! Reports of runs of one bucket.
ghost use Rattle.std.specs.Prelude.{◌≡◌, [], IfOk};
ghost use Rattle.nb_base.specs.Params.{InRange};

use crate::run_parts::{
    bare, bytes, full, host, mark, one, own, packet_to, placed, plan, push_packet, saw, slow,
};
use journal_check::is_evaluable;
use nb_base::{
    Bytes, Class, ControlItem, Host, HostLine, Items, Key, Line, Log, Mac, Mark, Mode, Moment, Nud,
    Op, Outcome, Reply, SendItem, Why,
};
use neigh_report::{Fates, fates, text};
use neigh_run::Run;
use std::alloc::{AllocError, Global};
use std::test::Fail;

const A: Mac = Mac([0x00, 0x11, 0x22, 0x33, 0x44, 0x55]);

const ONE: Key = Key::V4(0x0a00_0001);

const THREE: Key = Key::V4(0x0a00_0003);

const NINE: Key = Key::V4(0x0a00_0009);

const LINK_LOCAL: Key = Key::V6(0xfe80_0000_0000_0000_0000_0000_0000_0009);

const SIX: Key = Key::V6(0xfe80_0000_0000_0000_0000_0000_0000_0001);

/// One permanent entry and a packet to it.
const PACKET_REPORT: &str = "\
neigh 1 mode inline buckets 1 senders 1 window 50
host dev eth0 lladdr 02:00:00:00:00:02 inet 10.0.0.2
bucket 0 lines 2
0 0 32 add 10.0.0.1 00:11:22:33:44:55 permanent -> done
1 5 33 send 10.0.0.1 -> sent
  tx 33 00112233445502000000000208004500
host lines 1
1 0 neigh op 0 0 done
sender 1 items 1
1 5 inline 1 sent
marks 0
fates sent 1 fast 0 dropped 0 waiting 0
table 1
10.0.0.1 dev eth0 lladdr 00:11:22:33:44:55 PERMANENT
proxies 0
end
";

/// Lines of the forms that no script of one thread brings, and others.
const FORMS_REPORT: &str = "\
neigh 1 mode threads buckets 1 senders 1 window 50
host dev eth0 lladdr 02:00:00:00:00:02 inet 10.0.0.2
bucket 0 lines 10
0 10 96 arp 10.0.0.1 00:11:22:33:44:55 make stale -> full 3
1 11 33 send 10.0.0.1 -> waits
  solicit ffffffffffff020000000002080600010800060400010200000000020a0000020000000000000a000001
  wait 33
2 12 128 na fe80::9 - r-o -> ignored
3 1011 - timer 10.0.0.1 -> -
  solicit ffffffffffff020000000002080600010800060400010200000000020a0000020000000000000a000001
4 1012 65 send 10.0.0.3 -> full 2
  drop 65 tablefull
5 1013 160 show -> counted 1
  entry 10.0.0.1 dev eth0 INCOMPLETE
6 1014 - sweep -> -
7 1015 - collect 10.0.0.1 -> -
  drop 33 removed
8 1016 192 ns 10.0.0.1 00:11:22:33:44:55 -> done
9 1017 97 send 10.0.0.1 -> sent
  tx 97 00112233445502000000000208004500
host lines 4
1 0 frame arp proxied tx ab op 0 2 done
2 5 frame ndbad3 proxyfull
3 6 proxy exists
- 7 answer 0102
sender 1 items 4
1 5 fast 2 00112233445502000000000208004500
2 5 suspect 3 0 noprobes
3 5 again 1/2 3/4 5/6 7/8 1 waits dropping 2
4 5 first 9 sent
marks 2
mark 50 1
mark end 10
fates sent 1 fast 1 dropped 2 waiting 0
table 1
10.0.0.1 dev eth0 lladdr 00:11:22:33:44:55 DELAY
proxies 1
fe80::9 dev eth0 proxy
end
";

/// An IPv6 address is asked for in its solicited-node group; the entry of its advertisement is probed at its link address.
const SIX_REPORT: &str = "\
neigh 1 mode inline buckets 1 senders 1 window 50
host dev eth0 lladdr 02:00:00:00:00:02 inet6 fe80::2
bucket 0 lines 5
0 5 33 send fe80::1 -> waits
  solicit 3333ff00000102000000000286dd6000000000203afffe800000000000000000000000000002ff0200000000000000000001ff00000187007a9700000000fe8000000000000000000000000000010101020000000002
  wait 33
1 1005 - timer fe80::1 -> -
  solicit 3333ff00000102000000000286dd6000000000203afffe800000000000000000000000000002ff0200000000000000000001ff00000187007a9700000000fe8000000000000000000000000000010101020000000002
2 1500 32 na fe80::1 00:11:22:33:44:55 r-o -> done
  tx 33 00112233445502000000000286dd6000
3 2000 65 send fe80::1 -> sent
  tx 65 00112233445502000000000286dd6000
4 7000 - timer fe80::1 -> -
  solicit 00112233445502000000000286dd6000000000203afffe800000000000000000000000000002fe80000000000000000000000000000187007a1b00000000fe8000000000000000000000000000010101020000000002
host lines 1
1 1500 frame nd op 0 2 done
sender 1 items 2
1 5 inline 0 waits
2 2000 inline 3 sent
marks 0
fates sent 2 fast 0 dropped 0 waiting 0
table 1
fe80::1 dev eth0 lladdr 00:11:22:33:44:55 router PROBE
proxies 0
end
";

/// A packet to the first address at 5 ms.
fn push_first(alloc: Global, packets: &mut Items<SendItem>) -> Result<(), AllocError> {
    push_packet(alloc, packets, 5, ONE, &[0x45, 0])
}

fn one_packet(alloc: Global) -> Result<Items<SendItem>, AllocError> {
    let mut packets = Items::new(alloc);
    push_first(alloc, &mut packets)?;
    Ok(packets)
}

fn four_packets(alloc: Global) -> Result<Items<SendItem>, AllocError> {
    let mut packets = Items::new(alloc);
    push_first(alloc, &mut packets)?;
    push_first(alloc, &mut packets)?;
    push_first(alloc, &mut packets)?;
    push_first(alloc, &mut packets)?;
    Ok(packets)
}

fn six_packets(alloc: Global) -> Result<Items<SendItem>, AllocError> {
    let mut packets = Items::new(alloc);
    push_packet(alloc, &mut packets, 5, SIX, &[0x60, 0])?;
    push_packet(alloc, &mut packets, 2000, SIX, &[0x60, 0])?;
    Ok(packets)
}

fn packet_lines(alloc: Global) -> Result<Items<Line>, AllocError> {
    let add = Op::Add {
        key: ONE,
        mac: Some(A),
        nud: Nud::Permanent,
    };
    let mut lines = Items::new(alloc);
    lines.push(saw(own(0, 32, add), 0))?;
    lines.push(own(5, 33, packet_to(ONE)))?;
    Ok(lines)
}

fn first_forms(lines: &mut Items<Line>) -> Result<(), AllocError> {
    let arp = Op::Arp {
        key: ONE,
        mac: A,
        make: true,
        solicited: false,
    };
    let na = Op::Na {
        key: LINK_LOCAL,
        mac: None,
        router: true,
        solicited: false,
        overrides: true,
    };
    lines.push(full(own(10, 96, arp), 3))?;
    lines.push(saw(own(11, 33, packet_to(ONE)), 0))?;
    lines.push(own(12, 128, na))?;
    lines.push(bare(1011, Op::Timer { key: ONE }))?;
    lines.push(full(own(1012, 65, packet_to(THREE)), 2))
}

fn last_forms(lines: &mut Items<Line>) -> Result<(), AllocError> {
    lines.push(own(1013, 160, Op::Show))?;
    lines.push(saw(bare(1014, Op::Sweep), 1))?;
    lines.push(bare(1015, Op::Collect { key: ONE }))?;
    lines.push(saw(own(1016, 192, Op::Ns { key: ONE, mac: A }), 0))?;
    lines.push(own(1017, 97, packet_to(ONE)))
}

fn form_lines(alloc: Global) -> Result<Items<Line>, AllocError> {
    let mut lines = Items::new(alloc);
    first_forms(&mut lines)?;
    last_forms(&mut lines)?;
    Ok(lines)
}

/// A packet that waits, and a second question.
fn first_six(lines: &mut Items<Line>) -> Result<(), AllocError> {
    lines.push(saw(own(5, 33, packet_to(SIX)), 0))?;
    lines.push(bare(1005, Op::Timer { key: SIX }))
}

fn six_advert() -> Op {
    Op::Na {
        key: SIX,
        mac: Some(A),
        router: true,
        solicited: false,
        overrides: true,
    }
}

/// The answer, a packet that goes out, and a probe.
fn last_six(lines: &mut Items<Line>) -> Result<(), AllocError> {
    lines.push(own(1500, 32, six_advert()))?;
    lines.push(own(2000, 65, packet_to(SIX)))?;
    lines.push(bare(7000, Op::Timer { key: SIX }))
}

fn six_lines(alloc: Global) -> Result<Items<Line>, AllocError> {
    let mut lines = Items::new(alloc);
    first_six(&mut lines)?;
    last_six(&mut lines)?;
    Ok(lines)
}

fn packet_host_lines(alloc: Global) -> Result<Items<HostLine>, AllocError> {
    let mut ops = Items::new(alloc);
    ops.push(placed(0))?;
    let mut lines = Items::new(alloc);
    lines.push(HostLine::Neigh {
        n: 1,
        at: Moment(0),
        ops,
    })?;
    Ok(lines)
}

fn heard_advert() -> HostLine {
    HostLine::Frame {
        n: 1,
        at: Moment(1500),
        class: Class::Nd,
        queued: None,
        tx: None,
        op: Some(placed(2)),
    }
}

/// What the host heard.
fn push_frames(alloc: Global, lines: &mut Items<HostLine>) -> Result<(), AllocError> {
    lines.push(HostLine::Frame {
        n: 1,
        at: Moment(0),
        class: Class::Arp,
        queued: Some(true),
        tx: Some(bytes(alloc, &[0xab])?),
        op: Some(placed(2)),
    })?;
    lines.push(HostLine::Frame {
        n: 2,
        at: Moment(5),
        class: Class::NdBad(3),
        queued: Some(false),
        tx: None,
        op: None,
    })
}

/// A proxy that is there already, and an answer for another.
fn push_proxies(alloc: Global, lines: &mut Items<HostLine>) -> Result<(), AllocError> {
    lines.push(HostLine::Proxy {
        n: 3,
        at: Moment(6),
        reply: Reply::Exists,
    })?;
    let frame = bytes(alloc, &[1, 2])?;
    lines.push(HostLine::Answer {
        due: Moment(7),
        frame,
    })
}

fn form_host_lines(alloc: Global) -> Result<Items<HostLine>, AllocError> {
    let mut lines = Items::new(alloc);
    push_frames(alloc, &mut lines)?;
    push_proxies(alloc, &mut lines)?;
    Ok(lines)
}

fn form_log(alloc: Global) -> Result<Log, AllocError> {
    let mut log = Items::new(alloc);
    log.push(Outcome::Fast {
        number: 2,
        header: [0, 0x11, 0x22, 0x33, 0x44, 0x55, 2, 0, 0, 0, 0, 2, 8, 0],
    })?;
    log.push(slow(Why::Suspect { number: 3 }, 0, Reply::NoProbes))?;
    let why = Why::Again {
        tries: [(1, 2), (3, 4), (5, 6), (7, 8)],
    };
    log.push(slow(why, 1, Reply::Waits { dropped: 2 }))?;
    log.push(slow(Why::First, 9, Reply::Sent))?;
    Ok(log)
}

fn push_proxy(control: &mut Items<ControlItem>, key: Key, add: bool) -> Result<(), AllocError> {
    control.push(ControlItem::Proxy {
        at: Moment(0),
        key,
        add,
    })
}

fn form_control(alloc: Global) -> Result<Items<ControlItem>, AllocError> {
    let mut control = Items::new(alloc);
    push_proxy(&mut control, NINE, true)?;
    push_proxy(&mut control, LINK_LOCAL, true)?;
    push_proxy(&mut control, NINE, false)?;
    Ok(control)
}

fn form_marks(alloc: Global) -> Result<Items<Mark>, AllocError> {
    let mut marks = Items::new(alloc);
    marks.push(mark(alloc, Some(Moment(50)), 1)?)?;
    marks.push(mark(alloc, None, 10)?)?;
    Ok(marks)
}

fn packet_run(alloc: Global, host: Host) -> Result<Run, AllocError>
    ensures { IfOk result (λ run. InRange run.plan.params) }
{
    let plan = plan(alloc, host, one_packet(alloc)?, Items::new(alloc))?;
    let log = one(alloc, slow(Why::Inline, 1, Reply::Sent))?;
    Ok(Run {
        mode: Mode::Inline,
        plan,
        journals: one(alloc, packet_lines(alloc)?)?,
        host_lines: packet_host_lines(alloc)?,
        logs: one(alloc, log)?,
        marks: Items::new(alloc),
    })
}

fn form_run(alloc: Global, host: Host) -> Result<Run, AllocError>
    ensures { IfOk result (λ run. InRange run.plan.params) }
{
    let plan = plan(alloc, host, four_packets(alloc)?, form_control(alloc)?)?;
    Ok(Run {
        mode: Mode::Threads,
        plan,
        journals: one(alloc, form_lines(alloc)?)?,
        host_lines: form_host_lines(alloc)?,
        logs: one(alloc, form_log(alloc)?)?,
        marks: form_marks(alloc)?,
    })
}

fn six_log(alloc: Global) -> Result<Log, AllocError> {
    let mut log = Items::new(alloc);
    log.push(slow(Why::Inline, 0, Reply::Waits { dropped: 0 }))?;
    log.push(slow(Why::Inline, 3, Reply::Sent))?;
    Ok(log)
}

/// The host with an IPv6 address alone.
fn six_host(host: Host) -> Host {
    Host {
        ip4: None,
        ip6: Some(0xfe80_0000_0000_0000_0000_0000_0000_0002),
        ..host
    }
}

fn six_run(alloc: Global, host: Host) -> Result<Run, AllocError>
    ensures { IfOk result (λ run. InRange run.plan.params) }
{
    let plan = plan(
        alloc,
        six_host(host),
        six_packets(alloc)?,
        Items::new(alloc),
    )?;
    Ok(Run {
        mode: Mode::Inline,
        plan,
        journals: one(alloc, six_lines(alloc)?)?,
        host_lines: one(alloc, heard_advert())?,
        logs: one(alloc, six_log(alloc)?)?,
        marks: Items::new(alloc),
    })
}

/// A run without a journal and without a log, of which nothing came.
fn empty_run(alloc: Global, host: Host) -> Result<Run, AllocError>
    ensures params { IfOk result (λ run. InRange run.plan.params) }
    ensures journals { IfOk result (λ run. run.journals ≡ []) }
    ensures logs { IfOk result (λ run. run.logs ≡ []) }
{
    let plan = plan(alloc, host, Items::new(alloc), Items::new(alloc))?;
    Ok(Run {
        mode: Mode::Inline,
        plan,
        journals: Items::new(alloc),
        host_lines: Items::new(alloc),
        logs: Items::new(alloc),
        marks: Items::new(alloc),
    })
}

/// The text of a run of one bucket, if the machine can step over its journal.
fn told(alloc: Global, run: &Run) -> Result<Option<Bytes>, AllocError>
    requires { InRange run.now.plan.params }
{
    let [journal] = run.journals.as_slice() else {
        return Ok(None);
    };
    if is_evaluable(alloc, &run.plan.params, journal.as_slice())? {
        Ok(Some(text(alloc, run)?))
    } else {
        Ok(None)
    }
}

#[test]
fn permanent_entry_and_packet(rt: HostRuntime) -> Result<(), Fail> {
    let host = host().expect(&rt, "a name");
    let alloc = rt.alloc();
    let report = told(alloc, &packet_run(alloc, host)?)?.expect(&rt, "a run");
    assert_eq!(rt; report.as_slice(), PACKET_REPORT.as_bytes());
    Ok(())
}

#[test]
fn lines_of_the_other_forms(rt: HostRuntime) -> Result<(), Fail> {
    let host = host().expect(&rt, "a name");
    let alloc = rt.alloc();
    let report = told(alloc, &form_run(alloc, host)?)?.expect(&rt, "a run");
    assert_eq!(rt; report.as_slice(), FORMS_REPORT.as_bytes());
    Ok(())
}

#[test]
fn ip6_neighbour_is_solicited(rt: HostRuntime) -> Result<(), Fail> {
    let host = host().expect(&rt, "a name");
    let alloc = rt.alloc();
    let report = told(alloc, &six_run(alloc, host)?)?.expect(&rt, "a run");
    assert_eq!(rt; report.as_slice(), SIX_REPORT.as_bytes());
    Ok(())
}

#[test]
fn nothing_became_of_no_packets(rt: HostRuntime) -> Result<(), Fail> {
    let host = host().expect(&rt, "a name");
    let alloc = rt.alloc();
    let none = Fates {
        sent: 0,
        fast: 0,
        dropped: 0,
        waiting: 0,
    };
    assert_eq!(rt; fates(alloc, &empty_run(alloc, host)?)?, none);
    Ok(())
}
