ghost use Rattle.std.specs.Prelude.{◌≡◌, ◌+◌, ◌-◌, ◌<◌, ◌≤◌, ◌^◌, [], length};
ghost use Rattle.std.specs.Thread.{IsSync};
ghost use Rattle.change_order.specs.Orders.{JournalCounts, HasCounts};
ghost use Rattle.change_order.specs.Growing.{part_of, with_changing_line, with_looking_line};
ghost use Rattle.token_tests.specs.Counting.{HasCounted};

use nb_census::{Census, Headcount, PlainCensus, SeatCensus};
use std::test::Fail;
use std::thread::{Threads, join_mut};

// A line that looks, has one entry collected, and then makes one, as a bucket does it over any census.
fn make_behind_a_collected_one<C: Census>(census: &mut C) -> u32
    requires few { length (C.changes census.old) + 1 < 2 ^ 22 }
    requires some { 1 ≤ C.share census.old }
    requires room { C.share census.old ≤ 2 ^ 22 }
    ensures name { C.name census.new ≡ C.name census.old }
    ensures share { C.share census.new ≡ C.share census.old }
    ensures told { (j : JournalCounts) → HasCounts (part_of 0 (C.changes census.old) (C.looks census.old)) j → HasCounts (part_of 0 (C.changes census.new) (C.looks census.new)) (with_looking_line (record { before = length (C.changes census.old); seen = result }) (with_changing_line (C.share census.old) (with_changing_line (C.share census.old - 1) j))) }
{
    let seen = census.look();
    census.shrink(1);
    census.grow(1);
    seen
}

// A thousand changes, behind each of which it looks. The share ends at 500.
fn count_a_thousand(seat: &mut SeatCensus)
    requires { seat.old.changes ≡ [] }
    ensures { HasCounted seat.old seat.new }
{
    for _turn in 0..500u32 {
        seat.grow(2);
        seat.look();
        seat.shrink(1);
        seat.look();
    }
}

fn count_in_two<R: Threads + Sync>(rt: &R, a: &mut SeatCensus, b: &mut SeatCensus)
    requires { (a.old.changes ≡ []) × (b.old.changes ≡ []) }
    ensures { HasCounted a.old a.new × HasCounted b.old b.new }
{
    join_mut(rt, &mut || count_a_thousand(a), &mut || count_a_thousand(b));
}

#[test]
fn two_seats_gathered(rt: HostRuntime) -> Result<(), Fail> {
    let (headcount, mut seats) = Headcount::new(rt.alloc(), 2)?;
    let mut second = seats.pop().ok_or("no second seat")?;
    let mut first = seats.pop().ok_or("no first seat")?;
    first.grow(2);
    second.grow(1);
    assert_eq!(rt; second.look(), 3);
    assert_eq!(rt; make_behind_a_collected_one(&mut first), 3);
    seats.push(first)?;
    seats.push(second)?;
    let _counts = headcount.gather(seats);
    Ok(())
}

#[test]
fn plain_census_of_one_call(rt: HostRuntime) {
    let mut census = PlainCensus::new(2, 5);
    assert_eq!(rt; census.look(), 5);
    census.grow(3);
    assert_eq!(rt; census.look(), 8);
    census.shrink(1);
    assert_eq!(rt; make_behind_a_collected_one(&mut census), 7);
}

#[test]
fn four_threads_of_a_thousand(rt: HostRuntime) -> Result<(), Fail> {
    let (headcount, mut seats) = Headcount::new(rt.alloc(), 4)?;
    let mut fourth = seats.pop().ok_or("no fourth seat")?;
    let mut third = seats.pop().ok_or("no third seat")?;
    let mut second = seats.pop().ok_or("no second seat")?;
    let mut first = seats.pop().ok_or("no first seat")?;
    join_mut(
        &rt,
        &mut || count_in_two(&rt, &mut first, &mut second),
        &mut || count_in_two(&rt, &mut third, &mut fourth),
    );
    assert_eq!(rt; first.look(), 2000);
    seats.push(first)?;
    seats.push(second)?;
    seats.push(third)?;
    seats.push(fourth)?;
    let _counts = headcount.gather(seats);
    Ok(())
}
