ghost use Rattle.std.specs.Prelude.{◌≡◌, ◌<◌, ◌^◌, [], ◌∷◌, ◌++◌, None, Some, IfOk, IsTrue, length};
ghost use Rattle.hh_cell.specs.declared.cell.Obtained.TheVariants.{Fresh, Suspect};
ghost use Rattle.token_tests.specs.SameShown.{ReadTheSame, PublishedTheSame};

use crate::cells::{HEADER, unusable, usable};
use hh_cell::{Cell, Obtained, Pass, Writer};
use nb_base::Record;
use seq_cell::{Cell as PlainCell, Pass as PlainPass, Writer as PlainWriter};
use std::sync::Wait;
use std::test::Fail;

// Two different answers to one call.
#[derive(Debug, Drop)]
struct Differ {
    plain: Obtained,
    running: Obtained,
}

// Both forms publish a record.
fn publish_both<R: Wait>(
    rt: &R,
    plain: &PlainCell,
    cell: &Cell,
    keeper: &mut PlainWriter,
    writer: &mut Writer,
    next: Record,
)
    requires cells { (keeper.old.cell ≡ plain.now) × (writer.old.cell ≡ cell.now) }
    requires room { (length keeper.old.published < 2 ^ 62) × (length writer.old.published < 2 ^ 62) }
    requires same { PublishedTheSame keeper.old writer.old }
    ensures plain { keeper.new ≡ record keeper.old { published = keeper.old.published ++ next ∷ [] } }
    ensures running { writer.new ≡ record writer.old { published = writer.old.published ++ next ∷ [] } }
    ensures same { PublishedTheSame keeper.new writer.new }
{
    plain.publish(rt, keeper, next);
    cell.publish(writer, next);
}

// Both forms hand out a pass.
fn leave_both(
    plain: &PlainCell,
    cell: &Cell,
    keeper: &mut PlainWriter,
    writer: &mut Writer,
) -> (PlainPass, Pass)
    requires cells { (keeper.old.cell ≡ plain.now) × (writer.old.cell ≡ cell.now) }
    requires same { PublishedTheSame keeper.old writer.old }
    ensures plain { keeper.new ≡ record keeper.old { lodged = None } }
    ensures running { writer.new ≡ record writer.old { lodged = None } }
    ensures same { PublishedTheSame keeper.new writer.new }
    ensures cells { (result.0.cell ≡ plain.now) × (result.1.cell ≡ cell.now) }
    ensures passes { ReadTheSame result.0 result.1 }
{
    let one = plain.leave(keeper);
    let other = cell.leave(writer);
    (one, other)
}

// Both forms take a pass in.
fn lodge_both<R: Wait>(
    rt: &R,
    plain: &PlainCell,
    cell: &Cell,
    keeper: &mut PlainWriter,
    writer: &mut Writer,
    p: PlainPass,
    q: Pass,
)
    requires cells { (keeper.old.cell ≡ plain.now) × (writer.old.cell ≡ cell.now) }
    requires passes { (p.cell ≡ plain.now) × (q.cell ≡ cell.now) }
    requires same { PublishedTheSame keeper.old writer.old }
    requires read { ReadTheSame p q }
    ensures plain { keeper.new ≡ record keeper.old { lodged = Some p.seen } }
    ensures running { writer.new ≡ record writer.old { lodged = Some q.seen } }
    ensures same { PublishedTheSame keeper.new writer.new }
{
    plain.lodge(rt, keeper, p);
    cell.lodge(writer, q);
}

fn is_fresh(it: Obtained, number: u64, header: [u8; 14]) -> bool
    ensures { IsTrue result → it ≡ Fresh number header }
{
    match it {
        Obtained::Fresh {
            number: n,
            header: h,
        } => n == number && h == header,
        _ => false,
    }
}

fn is_suspect(it: Obtained, number: u64) -> bool
    ensures { IsTrue result → it ≡ Suspect number }
{
    match it {
        Obtained::Suspect { number: n } => n == number,
        _ => false,
    }
}

fn are_same(one: Obtained, other: Obtained) -> bool
    ensures { IsTrue result → other ≡ one }
{
    match one {
        Obtained::Fresh { number, header } => is_fresh(other, number, header),
        Obtained::Suspect { number } => is_suspect(other, number),
        Obtained::Again { .. } => false,
    }
}

// A reader of each form obtains the same.
fn obtain_both<R: Wait>(
    rt: &R,
    plain: &PlainCell,
    cell: &Cell,
    p: &mut PlainPass,
    q: &mut Pass,
) -> Result<Obtained, Differ>
    requires cells { (p.old.cell ≡ plain.now) × (q.old.cell ≡ cell.now) }
    requires same { ReadTheSame p.old q.old }
    ensures cells { (p.new.cell ≡ p.old.cell) × (q.new.cell ≡ q.old.cell) }
    ensures same { IfOk result (λ _. ReadTheSame p.new q.new) }
{
    let one = plain.obtain(rt, p);
    let other = cell.obtain(q);
    if are_same(one, other) {
        Ok(one)
    } else {
        Err(Differ {
            plain: one,
            running: other,
        })
    }
}

// Each call asks that the tokens of both forms show the same, and leaves them so.
#[test]
fn both_forms_show_the_same(rt: HostRuntime) -> Result<(), Fail> {
    let first = unusable();
    let next = usable(HEADER);
    let (plain, mut keeper) = PlainCell::new(&rt, rt.alloc(), first)?;
    let (cell, mut writer) = Cell::new(rt.alloc(), first)?;
    let (mut p, mut q) = leave_both(&plain, &cell, &mut keeper, &mut writer);
    let at_first = obtain_both(&rt, &plain, &cell, &mut p, &mut q)?;
    publish_both(&rt, &plain, &cell, &mut keeper, &mut writer, next);
    let published = obtain_both(&rt, &plain, &cell, &mut p, &mut q)?;
    publish_both(&rt, &plain, &cell, &mut keeper, &mut writer, first);
    lodge_both(&rt, &plain, &cell, &mut keeper, &mut writer, p, q);
    let (mut p, mut q) = leave_both(&plain, &cell, &mut keeper, &mut writer);
    let handed_on = obtain_both(&rt, &plain, &cell, &mut p, &mut q)?;
    let fresh = Obtained::Fresh {
        number: 1,
        header: HEADER,
    };
    let expected = [
        Obtained::Suspect { number: 0 },
        fresh,
        Obtained::Suspect { number: 2 },
    ];
    assert_eq!(rt; [at_first, published, handed_on], expected);
    Ok(())
}
