//! A report of two buckets, whose lines say what they saw of the whole table.
ghost use Rattle.std.specs.Prelude.{IfOk};
ghost use Rattle.nb_base.specs.Params.{InRange};

use crate::run_parts::{full, host, one, own, packet_to, plan, push_packet, saw, slow};
use journal_check::is_evaluable;
use nb_base::{Bytes, Host, Items, Journals, Key, Log, Mode, Plan, Reply, SendItem, Why};
use neigh_report::text;
use neigh_run::Run;
use std::alloc::{AllocError, Global};
use std::test::Fail;

const ELEVEN: Key = Key::V4(0x0a00_000b);

const TWELVE: Key = Key::V4(0x0a00_000c);

const THIRTEEN: Key = Key::V4(0x0a00_000d);

const FOURTEEN: Key = Key::V4(0x0a00_000e);

/// What a line saw stands right below it, before its acts. The last of four packets finds no place.
const REPORT: &str = "\
neigh 1 mode inline buckets 2 senders 1 window 50
host dev eth0 lladdr 02:00:00:00:00:02 inet 10.0.0.2
bucket 0 lines 2
0 0 65 send 10.0.0.12 -> waits
  seen 1
  solicit ffffffffffff020000000002080600010800060400010200000000020a0000020000000000000a00000c
  wait 65
1 0 129 send 10.0.0.14 -> full 3
  seen 3
  drop 129 tablefull
bucket 1 lines 2
0 0 33 send 10.0.0.11 -> waits
  seen 0
  solicit ffffffffffff020000000002080600010800060400010200000000020a0000020000000000000a00000b
  wait 33
1 0 97 send 10.0.0.13 -> waits
  seen 2
  solicit ffffffffffff020000000002080600010800060400010200000000020a0000020000000000000a00000d
  wait 97
host lines 0
sender 1 items 4
1 0 inline 0 waits
2 0 inline 0 waits
3 0 inline 1 waits
4 0 inline 1 full 3
marks 0
fates sent 0 fast 0 dropped 1 waiting 3
table 3
10.0.0.12 dev eth0 INCOMPLETE
10.0.0.11 dev eth0 INCOMPLETE
10.0.0.13 dev eth0 INCOMPLETE
proxies 0
end
";

/// A packet to each of four addresses.
fn packets(alloc: Global) -> Result<Items<SendItem>, AllocError> {
    let mut packets = Items::new(alloc);
    push_packet(alloc, &mut packets, 0, ELEVEN, &[1, 0])?;
    push_packet(alloc, &mut packets, 0, TWELVE, &[1, 0])?;
    push_packet(alloc, &mut packets, 0, THIRTEEN, &[1, 0])?;
    push_packet(alloc, &mut packets, 0, FOURTEEN, &[1, 0])?;
    Ok(packets)
}

fn journals(alloc: Global) -> Result<Journals, AllocError> {
    let mut even = Items::new(alloc);
    even.push(saw(own(0, 65, packet_to(TWELVE)), 1))?;
    even.push(full(own(0, 129, packet_to(FOURTEEN)), 3))?;
    let mut odd = Items::new(alloc);
    odd.push(saw(own(0, 33, packet_to(ELEVEN)), 0))?;
    odd.push(saw(own(0, 97, packet_to(THIRTEEN)), 2))?;
    let mut journals = Items::new(alloc);
    journals.push(even)?;
    journals.push(odd)?;
    Ok(journals)
}

fn log(alloc: Global) -> Result<Log, AllocError> {
    let mut log = Items::new(alloc);
    for place in [0, 0, 1] {
        log.push(slow(Why::Inline, place, Reply::Waits { dropped: 0 }))?;
    }
    log.push(slow(Why::Inline, 1, Reply::Full { seen: 3 }))?;
    Ok(log)
}

fn run_of_two(alloc: Global, host: Host) -> Result<Run, AllocError>
    ensures { IfOk result (λ run. InRange run.plan.params) }
{
    let plan = plan(alloc, host, packets(alloc)?, Items::new(alloc))?;
    Ok(Run {
        mode: Mode::Inline,
        plan: Plan { buckets: 2, ..plan },
        journals: journals(alloc)?,
        host_lines: Items::new(alloc),
        logs: one(alloc, log(alloc)?)?,
        marks: Items::new(alloc),
    })
}

/// The text of a run of two buckets, if the machine can step over their journals.
fn told(alloc: Global, run: &Run) -> Result<Option<Bytes>, AllocError>
    requires { InRange run.now.plan.params }
{
    let [even, odd] = run.journals.as_slice() else {
        return Ok(None);
    };
    let params = &run.plan.params;
    if is_evaluable(alloc, params, even.as_slice())?
        && is_evaluable(alloc, params, odd.as_slice())?
    {
        Ok(Some(text(alloc, run)?))
    } else {
        Ok(None)
    }
}

#[test]
fn lines_say_what_they_saw(rt: HostRuntime) -> Result<(), Fail> {
    let host = host().expect(&rt, "a name");
    let alloc = rt.alloc();
    let report = told(alloc, &run_of_two(alloc, host)?)?.expect(&rt, "a run");
    assert_eq!(rt; report.as_slice(), REPORT.as_bytes());
    Ok(())
}
