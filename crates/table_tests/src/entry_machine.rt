ghost use Rattle.std.specs.Prelude.{◌≤◌, IsTrue};
ghost use Rattle.nud_machine.specs.Asked.{NamesSettable, BringsSized, FiresAtDue};

mod steps;

use crate::rows::{A, row_count};
use nb_base::{Host, Key, Mac, Moment, Name, Nud, Params};
use nb_queues::WaitQueue;
use nud_machine::{Act, Acts, Entry, Event, due, record, step};
use std::alloc::{AllocError, Global};
use std::marker::Model;
use std::test::Fail;
use steps::{Step, step_of};

/// A present entry, its queue and the acts of its last step.
#[derive(Drop)]
struct Trial {
    params: Params,
    entry: Entry,
    waiting: WaitQueue,
    acts: Acts,
}

impl Model for Trial {
    ghost use Rattle.std.specs.Prelude.{ℕ};
    ghost use Rattle.nb_base.specs.Params.{InRange};
    ghost use Rattle.nud_machine.specs.Asked.{IsInRun};
    ghost use Rattle.nud_machine.specs.Kept.{state_of};
    ghost use Rattle.nud_machine.specs.State.{IsSound};

    ghost Value = { ℕ };

    ghost view = { λ t. t.entry.updated };

    ghost invariant = { λ t. InRange t.params × IsInRun t.entry × IsSound t.params (state_of t.entry t.waiting) };
}

/// Whether the event may be asked for at the moment.
fn may_be(event: &Event, at: Moment, entry: &Entry) -> bool
    ensures settable { IsTrue result → NamesSettable event.now }
    ensures sized { IsTrue result → BringsSized event.now }
    ensures due { IsTrue result → FiresAtDue event.now at entry.now }
{
    match event {
        Event::Admin { nud, .. } => matches!(
            nud,
            Nud::Permanent | Nud::Noarp | Nud::Reachable | Nud::Stale
        ),
        Event::Send { size, .. } => (257..=1_756).contains(size),
        Event::Timer => entry.due == Some(at),
        _ => true,
    }
}

impl Trial {
    /// An entry that was just made at 0, for which so many bytes may wait.
    fn made(alloc: Global, ucast_solicit: u32, unres_qlen_bytes: u32) -> Result<Trial, AllocError>
        requires solicit { ucast_solicit ≤ 10 }
        requires least { 256 ≤ unres_qlen_bytes }
        requires most { unres_qlen_bytes ≤ 16_448 }
    {
        let params = Params {
            ucast_solicit,
            unres_qlen_bytes,
            ..Params::DEFAULT
        };
        Ok(Trial {
            params,
            entry: Entry::made(Moment(0)),
            waiting: WaitQueue::new(alloc)?,
            acts: Acts::new(alloc)?,
        })
    }

    /// One step, where it may be asked for.
    fn step(&mut self, at: Moment, event: &Event) -> bool {
        let may = may_be(event, at, &self.entry)
            && self.entry.present
            && at.millis() <= Moment::GREATEST;
        if may {
            step(
                &mut self.entry,
                &self.params,
                at,
                event,
                &mut self.waiting,
                &mut self.acts,
            );
        }
        may
    }
}

/// The first acts, and that there are no more than three.
fn listed(acts: &[Act]) -> [Option<Act>; 4] {
    [
        acts.get(0).copied(),
        acts.get(1).copied(),
        acts.get(2).copied(),
        acts.get(3).copied(),
    ]
}

impl Trial {
    /// Whether the step may be asked for and leaves what it is to leave.
    fn takes(&mut self, step: &Step) -> bool {
        self.step(step.at, &step.event)
            && self.entry == step.left
            && listed(self.acts.as_slice()) == step.acts
    }

    /// Whether the row is one, and the entry takes its step.
    fn takes_row(&mut self, row: &str) -> bool {
        match step_of(row) {
            Some(step) => self.takes(&step),
            None => false,
        }
    }
}

/// The first row that the entry doesn't take; `None` where it takes all.
fn first_untaken_by<'a>(trial: &mut Trial, rows: &'a str) -> Option<&'a str> {
    for row in rows.lines() {
        if !trial.takes_row(row) {
            return Some(row);
        }
    }
    None
}

/// The same of an entry with so many unicast probes, where so many bytes may wait.
fn first_untaken<'a>(
    alloc: Global,
    ucast_solicit: u32,
    unres_qlen_bytes: u32,
    rows: &'a str,
) -> Result<Option<&'a str>, AllocError>
    requires solicit { ucast_solicit ≤ 10 }
    requires least { 256 ≤ unres_qlen_bytes }
    requires most { unres_qlen_bytes ≤ 16_448 }
{
    let mut trial = Trial::made(alloc, ucast_solicit, unres_qlen_bytes)?;
    Ok(first_untaken_by(&mut trial, rows))
}

/// The same with three unicast probes, where 800 bytes may wait.
fn first_untaken_of<'a>(alloc: Global, rows: &'a str) -> Result<Option<&'a str>, AllocError> {
    first_untaken(alloc, 3, 800, rows)
}

#[test]
fn arp_at_locktime_and_past_it(rt: HostRuntime) -> Result<(), Fail> {
    let rows = steps::arp_at_locktime_and_past_it();
    let untaken = first_untaken_of(rt.alloc(), rows)?;
    assert_eq!(rt; (untaken, row_count(rows)), (None, 3));
    Ok(())
}

#[test]
fn unresolved_after_three_probes(rt: HostRuntime) -> Result<(), Fail> {
    let rows = steps::unresolved_after_three_probes();
    let untaken = first_untaken_of(rt.alloc(), rows)?;
    assert_eq!(rt; (untaken, row_count(rows)), (None, 7));
    Ok(())
}

#[test]
fn reachable_turns_stale(rt: HostRuntime) -> Result<(), Fail> {
    let rows = steps::reachable_turns_stale();
    let untaken = first_untaken_of(rt.alloc(), rows)?;
    assert_eq!(rt; (untaken, row_count(rows)), (None, 3));
    Ok(())
}

#[test]
fn delay_then_unicast_probe(rt: HostRuntime) -> Result<(), Fail> {
    let rows = steps::delay_then_unicast_probe();
    let untaken = first_untaken_of(rt.alloc(), rows)?;
    assert_eq!(rt; (untaken, row_count(rows)), (None, 4));
    Ok(())
}

#[test]
fn confirm_in_delay(rt: HostRuntime) -> Result<(), Fail> {
    let rows = steps::confirm_in_delay();
    let untaken = first_untaken_of(rt.alloc(), rows)?;
    assert_eq!(rt; (untaken, row_count(rows)), (None, 4));
    Ok(())
}

#[test]
fn delay_without_unicast_probes(rt: HostRuntime) -> Result<(), Fail> {
    let rows = steps::delay_without_unicast_probes();
    let untaken = first_untaken(rt.alloc(), 0, 800, rows)?;
    assert_eq!(rt; (untaken, row_count(rows)), (None, 3));
    Ok(())
}

impl Trial {
    /// How many packets wait, and how many bytes they count for, behind rows that the entry takes.
    fn waits_behind(&mut self, rows: &str) -> Option<(u32, u32)> {
        match first_untaken_by(self, rows) {
            None => Some((self.waiting.len(), self.waiting.total())),
            Some(_) => None,
        }
    }
}

/// The same of an entry for which so many bytes may wait.
fn waiting(
    alloc: Global,
    unres_qlen_bytes: u32,
    rows: &str,
) -> Result<Option<(u32, u32)>, AllocError>
    requires least { 256 ≤ unres_qlen_bytes }
    requires most { unres_qlen_bytes ≤ 16_448 }
{
    let mut trial = Trial::made(alloc, 3, unres_qlen_bytes)?;
    Ok(trial.waits_behind(rows))
}

#[test]
fn bytes_that_wait(rt: HostRuntime) -> Result<(), Fail> {
    let rows = steps::bytes_push_out_two();
    let left = waiting(rt.alloc(), 2_000, rows)?;
    assert_eq!(rt; (left, row_count(rows)), (Some((1, 1_756)), 3));
    let rows = steps::large_packet_waits_alone();
    let left = waiting(rt.alloc(), 1_000, rows)?;
    assert_eq!(rt; (left, row_count(rows)), (Some((1, 257)), 2));
    Ok(())
}

/// The address A is given by hand, in the state REACHABLE.
const GIVEN_REACHABLE: Event = Event::Admin {
    mac: Some(A),
    nud: Nud::Reachable,
};

impl Trial {
    /// Whether its record can't be used, and its header has no bytes but zeros.
    fn is_unusable(&self, host: &Host, key: &Key) -> bool {
        let published = record(&self.entry, host, key);
        !published.usable && published.header == [0; 14]
    }

    /// Whether its record can be used, and has the header.
    fn has_header(&self, host: &Host, key: &Key, header: &[u8; 14]) -> bool {
        let published = record(&self.entry, host, key);
        published.usable && published.header == *header
    }

    fn due(&self) -> Option<Moment> {
        due(&self.entry)
    }

    /// Whether it takes the address A at 7 ms.
    fn is_given(&mut self) -> bool {
        self.step(Moment(7), &GIVEN_REACHABLE)
    }

    /// Whether it is removed at 8 ms, and nothing of it stays.
    fn is_removed(&mut self) -> bool {
        self.step(Moment(8), &Event::Remove) && self.entry == Entry::absent()
    }
}

fn host() -> Option<Host> {
    Some(Host {
        dev: Name::read(b"eth0")?,
        mac: Mac([2, 0, 0, 0, 0, 2]),
        ip4: Some(0x0a00_0002),
        ip6: None,
    })
}

const IP4: Key = Key::V4(0x0a00_0001);

const IP6: Key = Key::V6(0xfe80_0000_0000_0000_0000_0000_0000_0001);

const IP4_HEADER: [u8; 14] = [0, 0x11, 0x22, 0x33, 0x44, 0x55, 2, 0, 0, 0, 0, 2, 8, 0];

const IP6_HEADER: [u8; 14] = [
    0, 0x11, 0x22, 0x33, 0x44, 0x55, 2, 0, 0, 0, 0, 2, 0x86, 0xdd,
];

#[test]
fn records(rt: HostRuntime) -> Result<(), Fail> {
    let host = host().ok_or("a name")?;
    let mut trial = Trial::made(rt.alloc(), 3, 800)?;
    assert!(rt; trial.is_unusable(&host, &IP4));
    assert!(rt; trial.is_given() && trial.has_header(&host, &IP4, &IP4_HEADER));
    assert!(rt; trial.has_header(&host, &IP6, &IP6_HEADER));
    Ok(())
}

#[test]
fn dues_and_removal(rt: HostRuntime) -> Result<(), Fail> {
    let mut trial = Trial::made(rt.alloc(), 3, 800)?;
    assert_eq!(rt; trial.due(), None);
    assert!(rt; trial.is_given());
    assert_eq!(rt; trial.due(), Some(Moment(30_007)));
    assert!(rt; trial.is_removed());
    Ok(())
}
