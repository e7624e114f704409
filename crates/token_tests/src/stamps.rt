ghost use Rattle.std.specs.Prelude.{◌≡◌, ◌+◌, [], ◌∷◌, None, Some, length};
ghost use Rattle.std.specs.Thread.{IsSync};
ghost use Rattle.nb_base.specs.Ids.{participant_of};
ghost use Rattle.bucket_stamps.specs.Views.{newcomer};
ghost use Rattle.bucket_stamps.specs.Shown.{stamp_of, new_stamper};
ghost use Rattle.token_tests.specs.Entering.{HasEntered};

use atomic_table::Badge;
use bucket_stamps::{HasCell, Stamp, Stamper};
use nb_base::{Key, Line, Moment, Op, OpId};
use std::alloc::{AllocError, Global};
use std::marker::{Brand, Model, PhantomData};
use std::sync::{Mutex, Wait};
use std::test::Fail;
use std::thread::{Threads, join};

// A cell in name only.
#[derive(Drop)]
struct NamedCell {
    badge: Badge<()>,
}

impl HasCell for NamedCell {
    ghost cell_of = { λ n. n.badge.table_id };
}

fn line_of(at: u64, id: Option<OpId>, op: Op) -> Line
    ensures { result.id ≡ id }
{
    Line {
        at: Moment(at),
        id,
        op,
        seen: None,
        full: None,
    }
}

// Participant 0 makes a key known, and then participant 1 sends to it.
fn send_behind_an_add(stamper: &mut Stamper, a: &mut Stamp, b: &mut Stamp)
    requires stamper { stamper.old ≡ new_stamper stamper.old.id 2 }
    requires first { a.old ≡ stamp_of stamper.old.id (newcomer 0) }
    requires second { b.old ≡ stamp_of stamper.old.id (newcomer 1) }
    ensures pairs { b.new.pairs ≡ (1, record { 0 = 33 }) ∷ [] }
    ensures seen { length b.new.past ≡ 2 }
    ensures ids { (a.new.id ≡ a.old.id) × (b.new.id ≡ a.old.id) × (stamper.new.id ≡ a.old.id) }
    ensures participants { (a.new.participant ≡ 0) × (b.new.participant ≡ 1) × (stamper.new.participants ≡ 2) }
    ensures free { stamper.new.lodged ≡ None }
{
    let cell = NamedCell {
        badge: Badge::blank(),
    };
    let add = line_of(0, Some(OpId(32)), Op::Show);
    stamper.first_call(a, &[], &add, &Key::V4(1), &cell, Moment(0));
    let send = line_of(5, Some(OpId(33)), Op::Show);
    stamper.call(b, &[send], Moment(5), true);
}

// A refused call leaves a sweep, the other participant meets it, and both are given up.
fn refused_and_met(
    alloc: Global,
    mut stamper: Stamper,
    mut a: Stamp,
    mut b: Stamp,
) -> Result<(), AllocError>
    requires free { stamper.lodged ≡ None }
    requires ids { (a.id ≡ stamper.id) × (b.id ≡ stamper.id) }
    requires participants { (a.participant ≡ 0) × (b.participant ≡ 1) × (stamper.participants ≡ 2) }
{
    let sweep = line_of(1000, None, Op::Sweep);
    stamper.call(&mut b, &[sweep], Moment(1000), false);
    stamper.meet(&mut a);
    let mut stamps = Vec::new(alloc);
    stamps.push(a)?;
    stamps.push(b)?;
    stamper.give_up_all(stamps);
    Ok(())
}

#[test]
fn slow_send_by_hand(rt: HostRuntime) -> Result<(), Fail> {
    let (mut stamper, mut stamps) = Stamper::new(rt.alloc(), 2)?;
    let mut b = stamps.pop().ok_or("no second stamp")?;
    let mut a = stamps.pop().ok_or("no first stamp")?;
    send_behind_an_add(&mut stamper, &mut a, &mut b);
    refused_and_met(rt.alloc(), stamper, a, b)?;
    Ok(())
}

// ---- two threads behind a lock

/// The identity of the one desk.
trait DeskName {
    ghost use Rattle.std.specs.Prelude.{List};
    ghost use Rattle.atomic_table.specs.Seated.{TableId};

    ghost words: { List TableId };
}

impl DeskName for Brand {
    ghost words = { [] };
}

/// What lies behind the lock.
#[derive(Drop)]
struct Desk<N: DeskName> {
    stamper: Stamper,
    name: PhantomData<N>,
}

impl<N: DeskName> Model for Desk<N> {
    ghost use Rattle.std.specs.Prelude.{◌≡◌, None, [], ◌∷◌};
    ghost use Rattle.bucket_stamps.specs.Shown.{StamperShown};

    ghost Value = { StamperShown };

    ghost view = { λ d. d.stamper };

    ghost invariant = { λ d. (N.words ≡ d.stamper.id ∷ []) × (d.stamper.lodged ≡ None) × (d.stamper.participants ≡ 2) };
}

/// A participant's stamp of the desk.
#[derive(Drop)]
struct Pass<N: DeskName> {
    stamp: Stamp,
    name: PhantomData<N>,
}

impl<N: DeskName> Model for Pass<N> {
    ghost use Rattle.std.specs.Prelude.{◌≡◌, [], ◌∷◌};
    ghost use Rattle.bucket_stamps.specs.Shown.{StampShown};

    ghost Value = { StampShown };

    ghost view = { λ p. p.stamp };

    ghost invariant = { λ p. N.words ≡ p.stamp.id ∷ [] };
}

impl<N: DeskName> Desk<N> {
    // Enters one line of the participant.
    fn enter(&mut self, pass: &mut Pass<N>, id: OpId)
        requires { participant_of id ≡ pass.old.participant }
        ensures { HasEntered pass.old pass.new 1 }
    {
        let line = line_of(1, Some(id), Op::Show);
        self.stamper.call(&mut pass.stamp, &[line], Moment(1), true);
    }
}

// A hundred lines of one participant, each under the lock.
fn enter_a_hundred<N: DeskName, R: Wait>(
    rt: &R,
    desk: &Mutex<Desk<N>>,
    mut pass: Pass<N>,
    id: OpId,
) -> Pass<N>
    requires { participant_of id ≡ pass.participant }
    ensures { HasEntered pass result 100 }
{
    for _line in 0..100u32 {
        desk.lock(rt).enter(&mut pass, id);
    }
    pass
}

fn enter_in_two_threads<N: DeskName + Send + Sync, R: Threads + Wait + Sync>(
    rt: &R,
    alloc: Global,
    stamper: Stamper,
    a: Stamp,
    b: Stamp,
) -> Result<(), AllocError>
    requires named { N.words ≡ stamper.id ∷ [] }
    requires free { stamper.lodged ≡ None }
    requires ids { (a.id ≡ stamper.id) × (b.id ≡ stamper.id) }
    requires participants { (a.participant ≡ 0) × (b.participant ≡ 1) × (stamper.participants ≡ 2) }
{
    let desk: Mutex<Desk<N>> = Mutex::new(Desk {
        stamper,
        name: PhantomData,
    });
    let first: Pass<N> = Pass {
        stamp: a,
        name: PhantomData,
    };
    let second: Pass<N> = Pass {
        stamp: b,
        name: PhantomData,
    };
    let shared: &Mutex<Desk<N>> = &desk;
    let (first, second) = join(
        rt,
        move || -> Pass<N>
            requires { IsSync R.row × (first.participant ≡ 0) }
            ensures { HasEntered first result 100 }
        { enter_a_hundred(rt, shared, first, OpId(32)) },
        move || -> Pass<N>
            requires { IsSync R.row × (second.participant ≡ 1) }
            ensures { HasEntered second result 100 }
        { enter_a_hundred(rt, shared, second, OpId(33)) },
    );
    let mut stamps = Vec::new(alloc);
    stamps.push(first.stamp)?;
    stamps.push(second.stamp)?;
    desk.into_inner().stamper.give_up_all(stamps);
    Ok(())
}

fn start<R: Threads + Wait + Sync>(
    rt: &R,
    alloc: Global,
    stamper: Stamper,
    a: Stamp,
    b: Stamp,
) -> Result<(), AllocError>
    requires free { stamper.lodged ≡ None }
    requires ids { (a.id ≡ stamper.id) × (b.id ≡ stamper.id) }
    requires participants { (a.participant ≡ 0) × (b.participant ≡ 1) × (stamper.participants ≡ 2) }
{
    enter_in_two_threads::<Brand, R>(rt, alloc, stamper, a, b)
}

#[test]
fn two_threads_behind_a_lock(rt: HostRuntime) -> Result<(), Fail> {
    let (stamper, mut stamps) = Stamper::new(rt.alloc(), 2)?;
    let b = stamps.pop().ok_or("no second stamp")?;
    let a = stamps.pop().ok_or("no first stamp")?;
    start(&rt, rt.alloc(), stamper, a, b)?;
    Ok(())
}
