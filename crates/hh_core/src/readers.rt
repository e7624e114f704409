//! The readers by their numbers: one changes, the others stay.
ghost use Rattle.std.specs.Prelude.{◌≡◌, ◌+◌, ◌<◌, ℕ, IsSome, map, length, vec_len, IfOk, OnOk, replicate, slice_get};
ghost use Rattle.std.specs.Option.{option_map};
ghost use Rattle.std.specs.List.{All};
ghost use Rattle.hh_core.specs.State.{phase_of, change_at, fresh_reader};
ghost use Rattle.hh_core.specs.Step.{to_phase, to_floor, ends_try};
ghost use Rattle.hh_core.specs.Shown.{reader_state, HasRoom};
ghost use Rattle.hh_core.specs.declared.reader.ReaderPhase.TheVariants.{HasB};

use crate::reader::{Reader, ReaderPhase};
use std::alloc::{AllocError, Global};

/// So many readers that have seen nothing.
pub fn fresh_readers(alloc: Global, count: u32) -> Result<Vec<Reader>, AllocError>
    ensures fresh { IfOk result (λ readers. map reader_state readers.items ≡ replicate count fresh_reader) }
    ensures room { IfOk result (λ readers. All (HasRoom 0) readers.items) }
{
    let mut readers = Vec::new(alloc);
    for _number in 0..count {
        readers.push(Reader {
            phase: ReaderPhase::Rest,
            known: Vec::new(alloc),
            floor: 0,
            tries: Vec::new(alloc),
        })?;
    }
    Ok(readers)
}

/// The reader of this number, if there is one.
pub fn reader_at(readers: &[Reader], reader: u32) -> Option<&Reader>
    ensures { option_map (λ r. reader_state r.now) result ≡ slice_get (map reader_state readers.now) reader }
{
    let place = reader as usize;
    if place < readers.len() {
        return Some(&readers[place]);
    }
    None
}

/// The phase of a reader, if there is that reader.
pub fn phase_at(readers: &[Reader], reader: u32) -> Option<ReaderPhase>
    ensures phase { result ≡ phase_of (map reader_state readers.now) reader }
    ensures within { IsSome result → reader < length readers.now }
{
    let place = reader as usize;
    if place < readers.len() {
        let found = &readers[place];
        return Some(found.phase);
    }
    None
}

/// The reader's phase becomes this.
pub fn set_phase(readers: &mut Vec<Reader>, reader: u32, phase: ReaderPhase)
    requires { reader < vec_len readers.old }
    ensures changed { map reader_state readers.new.items ≡ change_at (to_phase phase) (map reader_state readers.old.items) reader }
    ensures room { (n : ℕ) → All (HasRoom n) readers.old.items → All (HasRoom n) readers.new.items }
{
    let found = &mut readers[reader as usize];
    found.phase = phase;
}

/// The reader's floor becomes this.
pub fn set_floor(readers: &mut Vec<Reader>, reader: u32, floor: u64)
    requires { reader < vec_len readers.old }
    ensures changed { map reader_state readers.new.items ≡ change_at (to_floor floor) (map reader_state readers.old.items) reader }
    ensures room { (n : ℕ) → All (HasRoom n) readers.old.items → All (HasRoom n) readers.new.items }
{
    let found = &mut readers[reader as usize];
    found.floor = floor;
}

/// The reader's try that has these in hand ends with the second load of the number.
pub fn end_try(readers: &mut Vec<Reader>, reader: u32, first: u64, words: (u64, u64), second: u64)
    requires within { reader < vec_len readers.old }
    requires spare { All (HasRoom 1) readers.old.items }
    ensures changed { map reader_state readers.new.items ≡ change_at (ends_try second (HasB first words.0 words.1)) (map reader_state readers.old.items) reader }
    ensures room { (n : ℕ) → All (HasRoom (n + 1)) readers.old.items → All (HasRoom n) readers.new.items }
{
    let found = &mut readers[reader as usize];
    found.end_try(first, words, second);
}

/// Makes room for so many further tries of each reader.
pub fn reserve_all(readers: &mut Vec<Reader>, more: usize) -> Result<(), AllocError>
    ensures same { map reader_state readers.new.items ≡ map reader_state readers.old.items }
    ensures room { OnOk result (All (HasRoom more) readers.new.items) }
    ensures kept { (n : ℕ) → All (HasRoom n) readers.old.items → All (HasRoom n) readers.new.items }
{
    for place in 0..readers.len() {
        let found = &mut readers[place];
        found.reserve(more)?;
    }
    Ok(())
}
