ghost use Rattle.std.specs.Prelude.{◌≡◌, ◌+◌, ◌<◌, ◌^◌, length};

use hh_cell::{Cell, Hold, Obtained, Pass, StepGate, Writer};
use nb_base::Record;
use std::sync::Arc;
use std::test::Fail;
use std::thread::{Threads, join_mut};

pub const HEADER: [u8; 14] = [0, 0x11, 0x22, 0x33, 0x44, 0x55, 2, 0, 0, 0, 0, 2, 8, 0];

const PUBLICATIONS: u64 = 10_000;

pub fn unusable() -> Record {
    Record {
        usable: false,
        header: [0; 14],
    }
}

pub fn usable(header: [u8; 14]) -> Record {
    Record {
        usable: true,
        header,
    }
}

// Obtains behind each of the first three steps.
#[derive(Drop)]
struct Watching<'a> {
    cell: &'a Cell,
    pass: Pass,
    seen: [Option<Obtained>; 3],
    ghost same: { pass.cell ≡ cell.now },
}

impl<'a> StepGate for Watching<'a> {
    fn between(&mut self, k: u32) {
        let cell = self.cell;
        let obtained = cell.obtain(&mut self.pass);
        match k {
            1 => self.seen[0] = Some(obtained),
            2 => self.seen[1] = Some(obtained),
            3 => self.seen[2] = Some(obtained),
            _ => {}
        }
    }
}

#[test]
fn reader_between_the_writers_steps(rt: HostRuntime) -> Result<(), Fail> {
    let (cell, mut writer) = Cell::new(rt.alloc(), unusable())?;
    let mut pass = cell.leave(&mut writer);
    assert_eq!(rt; cell.obtain(&mut pass), Obtained::Suspect { number: 0 });
    let mut gate = Watching {
        cell: &cell,
        pass,
        seen: [None; 3],
    };
    cell.publish_with(&mut writer, usable(HEADER), &mut gate);
    let again = Obtained::Again { tries: [(1, 1); 4] };
    assert_eq!(rt; gate.seen, [Some(again); 3]);
    let fresh = Obtained::Fresh {
        number: 1,
        header: HEADER,
    };
    let shared = gate.cell;
    assert_eq!(rt; shared.obtain(&mut gate.pass), fresh);
    Ok(())
}

#[test]
fn published_record_is_fresh(rt: HostRuntime) -> Result<(), Fail> {
    let (cell, mut writer) = Cell::new(rt.alloc(), unusable())?;
    let mut pass = cell.leave(&mut writer);
    assert_eq!(rt; cell.obtain(&mut pass), Obtained::Suspect { number: 0 });
    cell.publish(&mut writer, usable(HEADER));
    let fresh = Obtained::Fresh {
        number: 1,
        header: HEADER,
    };
    assert_eq!(rt; cell.obtain(&mut pass), fresh);
    Ok(())
}

#[test]
fn pass_goes_on_where_it_was_given_up(rt: HostRuntime) -> Result<(), Fail> {
    let (cell, mut writer) = Cell::new(rt.alloc(), unusable())?;
    let pass = cell.leave(&mut writer);
    cell.publish(&mut writer, usable(HEADER));
    cell.lodge(&mut writer, pass);
    let mut pass = cell.leave(&mut writer);
    cell.publish(&mut writer, unusable());
    assert_eq!(rt; cell.obtain(&mut pass), Obtained::Suspect { number: 2 });
    cell.meet(&mut writer, &mut pass);
    let cell = Arc::new(rt.alloc(), cell)?;
    let mut hold = Hold { cell, pass };
    assert_eq!(rt; hold.obtain(), Obtained::Suspect { number: 2 });
    Ok(())
}

// The header that is published as the record of this number.
fn header_of(number: u64) -> [u8; 14] {
    let low = (number % 256) as u8;
    let high = (number / 256 % 256) as u8;
    [
        low, high, low, high, low, high, low, high, low, high, low, high, low, high,
    ]
}

fn publish_all(cell: &Cell, writer: &mut Writer)
    requires cell { writer.old.cell ≡ cell.now }
    requires room { length writer.old.published ≡ 1 }
{
    for number in 0..PUBLICATIONS {
        cell.publish(writer, usable(header_of(number + 1)));
    }
}

// Whether each record that was read is the one of its number, and no number lies below one before it.
fn reads_what_was_published(cell: &Cell, pass: &mut Pass) -> bool
    requires { pass.old.cell ≡ cell.now }
{
    let mut last = 0;
    let mut right = true;
    for _turn in 0..PUBLICATIONS {
        match cell.obtain(pass) {
            Obtained::Fresh { number, header } => {
                right = right && 0 < number && last <= number && header == header_of(number);
                last = number;
            }
            Obtained::Suspect { number } => right = right && last == 0 && number == 0,
            Obtained::Again { .. } => {}
        }
    }
    right
}

fn reads_in_two<R: Threads + Sync>(rt: &R, cell: &Cell, a: &mut Pass, b: &mut Pass) -> bool
    requires { (a.old.cell ≡ cell.now) × (b.old.cell ≡ cell.now) }
{
    let (first, second) = join_mut(
        rt,
        &mut || reads_what_was_published(cell, a),
        &mut || reads_what_was_published(cell, b),
    );
    first && second
}

fn publishes_beside_a_reader<R: Threads + Sync>(
    rt: &R,
    cell: &Cell,
    writer: &mut Writer,
    pass: &mut Pass,
) -> bool
    requires cell { (writer.old.cell ≡ cell.now) × (pass.old.cell ≡ cell.now) }
    requires room { length writer.old.published ≡ 1 }
{
    let (_, right) = join_mut(
        rt,
        &mut || publish_all(cell, writer),
        &mut || reads_what_was_published(cell, pass),
    );
    right
}

#[test]
fn one_writer_and_three_readers(rt: HostRuntime) -> Result<(), Fail> {
    let (cell, mut writer) = Cell::new(rt.alloc(), unusable())?;
    let mut first = cell.leave(&mut writer);
    let mut second = cell.leave(&mut writer);
    let mut third = cell.leave(&mut writer);
    let (one, two) = join_mut(
        &rt,
        &mut || publishes_beside_a_reader(&rt, &cell, &mut writer, &mut first),
        &mut || reads_in_two(&rt, &cell, &mut second, &mut third),
    );
    assert!(rt; one && two);
    Ok(())
}
