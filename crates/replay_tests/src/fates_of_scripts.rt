ghost use Rattle.std.specs.Prelude.{◌≡◌, ◌≤◌, length, IfOk};
ghost use Rattle.neigh_script.specs.Limits as limits;
ghost use Rattle.neigh_run.specs.Plan as plan_by;

use nb_base::{Bytes, Items, Plan};
use neigh_plan::plan;
use neigh_replay::replay_inline;
use neigh_report::{Fates, fates, summary};
use neigh_script::{Script, read};
use std::alloc::{AllocError, Global};
use std::test::Fail;

/// Two packets go to a permanent entry. Of four to an address that never answers one is dropped as the bytes that may wait are too few, and three
/// with the last probe, and one to another such address still waits.
const SEVEN_PACKETS: &str = "\
host dev eth0 lladdr 02:00:00:00:00:02 inet 10.0.0.2
param unres_qlen_bytes 800
@0 neigh add 10.0.0.5 lladdr 00:11:22:33:44:55
@0 send 1 10.0.0.1 01
@0 send 1 10.0.0.1 02
@0 send 1 10.0.0.1 03
@0 send 1 10.0.0.1 04
@1 send 1 10.0.0.5 05
@3500 send 1 10.0.0.5 06
@3600 send 1 10.0.0.9 07
";

const SUMMARY: &str = "\
generated 7 records 10000 sends 20000 lines 11
fates sent 2 fast 0 dropped 4 waiting 1
table 3
end
";

/// The plan of a script alone.
#[tactic(auto, using(neigh_plan::proofs::Items::plan_of_files_is, neigh_plan::proofs::Items::none_bounded))]
fn plan_of(alloc: Global, script: &Script) -> Result<Plan, AllocError>
    ensures value { IfOk result (λ plan. plan ≡ plan_by.plan_of script.now 50 1) }
{
    plan(alloc, &Items::new(alloc), &[], script, 50, 1)
}

/// What became of the packets of a script, by one thread, and its run's summary as that of the number 7.
fn fates_of(alloc: Global, script: &Script) -> Result<(Fates, Bytes), AllocError>
    requires within { limits.IsWithinLimits script.now }
    requires few { length script.now.items ≤ 131_072 }
{
    let plan = plan_of(alloc, script)?;
    let run = replay_inline(alloc, plan)?;
    let fates = fates(alloc, &run)?;
    let summary = summary(alloc, 7, &run)?;
    Ok((fates, summary))
}

#[test]
fn fates_of_seven_packets(rt: HostRuntime) -> Result<(), Fail> {
    let alloc = rt.alloc();
    let script = read(alloc, SEVEN_PACKETS.as_bytes()).map_err(|_| "a script")?;
    let (fates, summary) = fates_of(alloc, &script).map_err(|_| "a run")?;
    let expected = Fates {
        sent: 2,
        fast: 0,
        dropped: 4,
        waiting: 1,
    };
    assert_eq!(rt; fates, expected);
    assert_eq!(rt; summary.as_slice(), SUMMARY.as_bytes());
    Ok(())
}
