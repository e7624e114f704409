ghost use Rattle.std.specs.Prelude.{◌≤◌};

use crate::rows::lines_of;
use crate::worked::{Worked, answer, are_lawful, first_wrong};
use journal_check::is_lawful;
use nb_base::{Moment, Params, Reply};
use std::alloc::Global;
use std::test::Fail;

const UNRESOLVED: Worked = Worked {
    lines: "\
0 33 send 1 1 0 -
0 65 send 1 1 - -
0 97 send 1 1 - -
0 129 send 1 1 - -
1000 - timer 1 - - -
2000 - timer 1 - - -
3000 - timer 1 - - -
4000 64 show - - - -
",
    clock: 4000,
    damaged: "\
4 1|999 - timer 1 - - -
6 1|
7 0|3000 - timer 1 - - -
1 1|5 65 send 1 1 - -
0 1|0 33 send 1 1 0 0
7 1|4000 - show - - - -
4 1|1000 161 timer 1 - - -
0 1|0 33 send 1 1 - -
1 1|0 65 send 1 1 1 -
4 1|1000 - timer 1 - 1 -
",
    answers: "\
3 waits 1
7 counted 1
",
    known: "8 failed -\n",
};

/// 800 bytes may wait: three packets of one byte.
const NARROW: Params = Params {
    unres_qlen_bytes: 800,
    ..Params::DEFAULT
};

#[test]
fn unresolved_after_three_probes(rt: HostRuntime) -> Result<(), Fail> {
    let wrong = first_wrong(rt.alloc(), &NARROW, &UNRESOLVED)?;
    assert_eq!(rt; wrong, None);
    Ok(())
}

#[test]
fn lines_later_than_the_clock(rt: HostRuntime) -> Result<(), Fail> {
    let lawful = are_lawful(rt.alloc(), &NARROW, UNRESOLVED.lines, 3999)?;
    assert_eq!(rt; lawful, Some(false));
    Ok(())
}

/// How many packets the last of the first lines' packets pushes out, where so many bytes may wait.
fn pushed_out(
    alloc: Global,
    unres_qlen_bytes: u32,
    rows: &str,
    count: usize,
) -> Result<Option<Reply>, Fail>
    requires least { 256 ≤ unres_qlen_bytes }
    requires most { unres_qlen_bytes ≤ 16_448 }
{
    let params = Params {
        unres_qlen_bytes,
        ..Params::DEFAULT
    };
    let lines = lines_of(alloc, rows)?;
    let lines = lines.get(..count).ok_or("lines")?;
    if is_lawful(alloc, &params, lines, Moment(0))? != Some(true) {
        return Ok(None);
    }
    answer(alloc, &params, lines, count.saturating_sub(1))
}

const BYTES_PUSH_OUT_TWO: &str = "\
0 33 send 1 500 0 -
0 65 send 1 500 - -
0 97 send 1 1500 - -
";

#[test]
fn bytes_push_out_two(rt: HostRuntime) -> Result<(), Fail> {
    let table = [(1, 0), (2, 0), (3, 2)];
    for (count, dropped) in table {
        assert_eq!(rt;
            pushed_out(rt.alloc(), 2000, BYTES_PUSH_OUT_TWO, count)?,
            Some(Reply::Waits { dropped })
        );
    }
    Ok(())
}

const LARGE_PACKET: &str = "\
0 33 send 1 1500 0 -
0 65 send 1 1 - -
";

#[test]
fn large_packet_waits_alone(rt: HostRuntime) -> Result<(), Fail> {
    let table = [(1, 0), (2, 1)];
    for (count, dropped) in table {
        assert_eq!(rt;
            pushed_out(rt.alloc(), 1000, LARGE_PACKET, count)?,
            Some(Reply::Waits { dropped })
        );
    }
    Ok(())
}

const TIES: Worked = Worked {
    lines: "\
0 33 send 7 1 0 -
0 65 send 5 1 1 -
1000 - timer 7 - - -
1000 - timer 5 - - -
1000 32 show - - - -
",
    clock: 1000,
    damaged: "\
2 2|1000 - timer 5 - - -|1000 - timer 7 - - -
3 1|
",
    answers: "",
    known: "",
};

#[test]
fn ties_go_by_rank(rt: HostRuntime) -> Result<(), Fail> {
    let wrong = first_wrong(rt.alloc(), &Params::DEFAULT, &TIES)?;
    assert_eq!(rt; wrong, None);
    Ok(())
}

const FORCED_PASS: Worked = Worked {
    lines: "\
0 33 send 11 1 0 -
0 65 send 12 1 1 -
0 97 send 13 1 2 -
0 129 send 14 1 3 3
1000 - timer 11 - - -
1000 - timer 12 - - -
1000 - timer 13 - - -
2000 - timer 11 - - -
2000 - timer 12 - - -
2000 - timer 13 - - -
3000 - timer 11 - - -
3000 - timer 12 - - -
3000 - timer 13 - - -
5001 - collect 11 - - -
5001 - collect 12 - - -
5001 161 send 14 1 3 -
",
    clock: 5001,
    damaged: "\
3 1|0 129 send 14 1 3 -
3 1|0 129 send 14 1 3 4
13 1|
13 2|5001 - collect 12 - - -|5001 - collect 11 - - -
15 0|5001 - collect 13 - - -
14 1|5000 - collect 12 - - -
15 1|5001 161 send 14 1 3 1
15 1|5001 161 send 14 1 2 -
15 1|5001 161 send 14 1 4 -
14 1|5001 - collect 12 - 3 -
",
    answers: "\
3 full 3
15 waits 0
14 -
",
    known: "",
};

#[test]
fn full_table_and_forced_pass(rt: HostRuntime) -> Result<(), Fail> {
    let params = Params {
        gc_thresh1: 1,
        gc_thresh2: 2,
        gc_thresh3: 3,
        ..Params::DEFAULT
    };
    assert_eq!(rt; first_wrong(rt.alloc(), &params, &FORCED_PASS)?, None);
    Ok(())
}

const TURNS_STALE: Worked = Worked {
    lines: "\
0 32 add 1 reachable 0 -
30000 - timer 1 - - -
30000 - sweep - - 1 -
30010 - timer 1 - - -
40000 64 show - - - -
",
    clock: 40_000,
    damaged: "\
1 1|
3 1|30011 - timer 1 - - -
2 1|
1 2|30000 - sweep - - 1 -|30000 - timer 1 - - -
2 2|30010 - timer 1 - - -|30000 - sweep - - 1 -
2 1|30000 - sweep - - - -
2 1|30000 - sweep - - 0 -
",
    answers: "4 counted 1\n",
    known: "5 stale a\n",
};

#[test]
fn reachable_turns_stale(rt: HostRuntime) -> Result<(), Fail> {
    let wrong = first_wrong(rt.alloc(), &Params::DEFAULT, &TURNS_STALE)?;
    assert_eq!(rt; wrong, None);
    Ok(())
}

const THIRD_SWEEP: Worked = Worked {
    lines: "\
0 32 add 1 stale 0 -
30000 - sweep - - 1 -
60000 - sweep - - 1 -
90000 - sweep - - 1 -
90000 64 show - - - -
",
    clock: 90_000,
    damaged: "\
2 1|
3 2|90000 64 show - - - -|90000 - sweep - - 1 -
1 1|30001 - sweep - - 1 -
4 0|90000 - sweep - - 0 -
",
    answers: "4 counted 0\n",
    known: "\
3 stale a
5 -
",
};

#[test]
fn third_sweep_removes(rt: HostRuntime) -> Result<(), Fail> {
    let params = Params {
        gc_thresh1: 1,
        ..Params::DEFAULT
    };
    assert_eq!(rt; first_wrong(rt.alloc(), &params, &THIRD_SWEEP)?, None);
    Ok(())
}

/// The second line saw so many entries of the whole table, and nothing is taken from it otherwise.
const SWEPT: &str = "\
0 32 add 1 stale 0 -
90000 - sweep - - - -
90000 64 show - - - -
";

/// How many entries are present behind a sweep of one long unused entry that saw so many of the whole table, where sweeps remove
/// from two entries on; `None` where the sweep isn't lawful.
fn left_by_sweep(alloc: Global, seen: u32) -> Result<Option<Reply>, Fail> {
    let params = Params {
        gc_thresh1: 2,
        gc_interval: 90_000,
        ..Params::DEFAULT
    };
    let mut lines = lines_of(alloc, SWEPT)?;
    if let Some(line) = lines.get_mut(1) {
        line.seen = Some(seen);
    }
    if is_lawful(alloc, &params, &lines, Moment(90_000))? != Some(true) {
        return Ok(None);
    }
    answer(alloc, &params, &lines, 2)
}

#[test]
fn sweeps_go_by_what_they_saw(rt: HostRuntime) -> Result<(), Fail> {
    let table = [
        (0, None),
        (1, Some(Reply::Counted(1))),
        (2, Some(Reply::Counted(0))),
        (3, Some(Reply::Counted(0))),
    ];
    for (seen, left) in table {
        assert_eq!(rt; left_by_sweep(rt.alloc(), seen)?, left, "saw {seen}");
    }
    Ok(())
}

const LOCKTIME: Worked = Worked {
    lines: "\
0 32 add 1 stale 0 -
1000 96 arp 1 - - -
1001 128 arp 1 - - -
",
    clock: 1001,
    damaged: "",
    answers: "1 done\n",
    known: "\
2 stale a
3 reachable b
",
};

#[test]
fn locktime_holds_the_address(rt: HostRuntime) -> Result<(), Fail> {
    let wrong = first_wrong(rt.alloc(), &Params::DEFAULT, &LOCKTIME)?;
    assert_eq!(rt; wrong, None);
    Ok(())
}

const STAYS: Worked = Worked {
    lines: "\
0 32 add 1 permanent 0 -
6000 65 send 2 1 1 1
",
    clock: 6000,
    damaged: "1 0|6000 - collect 1 - - -\n",
    answers: "",
    known: "2 permanent a\n",
};

#[test]
fn a_permanent_entry_stays(rt: HostRuntime) -> Result<(), Fail> {
    let params = Params {
        gc_thresh2: 1,
        gc_thresh3: 1,
        ..Params::DEFAULT
    };
    assert_eq!(rt; first_wrong(rt.alloc(), &params, &STAYS)?, None);
    Ok(())
}

/// No line of a run adds an entry in this state.
const NO_STATE: &str = "0 32 add 1 failed 0 -\n";

#[test]
fn no_lines_and_none_of_a_run(rt: HostRuntime) -> Result<(), Fail> {
    let alloc = rt.alloc();
    for (rows, lawful) in [("", Some(true)), (NO_STATE, None)] {
        assert_eq!(rt; are_lawful(alloc, &Params::DEFAULT, rows, 0)?, lawful);
    }
    Ok(())
}
