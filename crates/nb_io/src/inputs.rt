//! Inputs by name, and whole files of them.
ghost use Rattle.std.specs.Prelude.{◌≡◌, ◌≢◌, ◌↔◌, ℕ, ◌+◌, ◌<◌, ◌≤◌, List, length, drop, Option, Some, Ok, Err, is_some, IfSome, IfOk, OnOk, OnErr};
ghost use Rattle.std.specs.Io.KnownBytes.{ReadConsumes};
ghost use Rattle.nb_io.specs.Faults.{Rose, HasCause};
ghost use Rattle.nb_io.specs.Names.{OpensOne};

use crate::Failed;
use nb_base::{Bytes, Items};
use std::alloc::{AllocError, Global};

/// Files by name. What a name holds is told to contracts or not; no call changes it, nor whether it
/// is told. Each name has a count of its faults, which never falls.
pub trait Inputs {
    /// What a name holds, where it is told.
    ghost held: { Self → List ℕ → Option (List ℕ) };

    /// How many calls for a name have failed; the count stays at 2^64 - 1.
    ghost faults: { Self → List ℕ → ℕ };

    /// That a file number was opened, under this name.
    ghost name_of: { Self → ℕ → List ℕ → Type 0 };

    /// What stands behind the place of a file number, where it is told.
    ghost left: { Self → ℕ → Option (List ℕ) };

    /// Opens a file by name and gives its number, whose place is the file's front. It changes the
    /// place of no other number, and of none where it fails. No number loses its name, and no other
    /// number is opened.
    ///
    /// `Failed` comes only where the count of `name` rose.
    fn open(&mut self, name: &str) -> Result<u32, Failed>
        ensures opened { IfOk result (λ file. name_of self.new file name.now) }
        ensures front { IfOk result (λ file. left self.new file ≡ held self.old name.now) }
        ensures names { (file : ℕ) (other : List ℕ) → name_of self.old file other → name_of self.new file other }
        ensures only { (file : ℕ) (other : List ℕ) → result ≢ Ok file → name_of self.new file other → name_of self.old file other }
        ensures others { (file : ℕ) → result ≢ Ok file → left self.new file ≡ left self.old file }
        ensures held { (other : List ℕ) → held self.new other ≡ held self.old other }
        ensures later { (other : List ℕ) → faults self.old other ≤ faults self.new other }
        ensures cause { HasCause (faults self.old name.now) (faults self.new name.now) result };

    /// Reads bytes from the place of a file number, at most as many as `into` has room for, and
    /// moves the place behind them. 0 bytes mean the end of the file.
    ///
    /// `Failed` comes only where the count of the file's name rose, and leaves every place as it was.
    fn read(&mut self, file: u32, into: &mut [u8]) -> Result<usize, Failed>
        requires opened { (name : List ℕ) × name_of self.old file name }
        requires room { 0 < length into.old }
        ensures count { IfOk result (λ count. count ≤ length into.new) }
        ensures bytes { ReadConsumes (left self.old file) (left self.new file) result into.new }
        ensures told { is_some (left self.new file) ≡ is_some (left self.old file) }
        ensures refused { OnErr result (left self.new file ≡ left self.old file) }
        ensures names { (other : ℕ) (name : List ℕ) → (name_of self.old other name ↔ name_of self.new other name) }
        ensures others { (other : ℕ) → other ≢ file → left self.new other ≡ left self.old other }
        ensures held { (other : List ℕ) → held self.new other ≡ held self.old other }
        ensures later { (other : List ℕ) → faults self.old other ≤ faults self.new other }
        ensures cause { (name : List ℕ) → name_of self.old file name → HasCause (faults self.old name) (faults self.new name) result };
}

/// Why a file wasn't read.
#[derive(Clone, Copy, Debug, PartialEq, Eq)]
pub enum ReadFail {
    /// The file didn't open, or a read of it failed.
    ReadFault,
    /// The file has more bytes than the limit.
    TooLong,
    /// There was no memory for the bytes.
    Memory,
}

/// Reads a whole file of at most `limit` bytes.
///
/// `ReadFault` comes only where the count of `name` rose. `TooLong` comes where `limit + 1` bytes
/// were read without a fault, and nothing further is read then. At most one file number is opened,
/// once. No other file number's place changes, and no name holds anything else afterwards.
pub fn read_all<I: Inputs>(
    alloc: Global,
    inputs: &mut I,
    name: &str,
    limit: usize,
) -> Result<Bytes, ReadFail>
    ensures within { IfOk result (λ bytes. length bytes ≤ limit) }
    ensures whole { IfOk result (λ bytes. IfSome (I.held inputs.old name.now) (λ all. bytes ≡ all)) }
    ensures too_long { result ≡ Err ReadFail.TooLong → IfSome (I.held inputs.old name.now) (λ all. limit < length all) }
    ensures stopped { result ≡ Err ReadFail.TooLong
        → (file : ℕ) × (I.name_of inputs.new file name.now
        × IfSome (I.held inputs.old name.now) (λ all. I.left inputs.new file ≡ Some (drop (limit + 1) all))) }
    ensures fault { result ≡ Err ReadFail.ReadFault → Rose (I.faults inputs.old name.now) (I.faults inputs.new name.now) }
    ensures held { (other : List ℕ) → I.held inputs.new other ≡ I.held inputs.old other }
    ensures names { OpensOne (I.name_of inputs.old) (I.name_of inputs.new) }
    ensures places { (file : ℕ) → (I.name_of inputs.new file name.now → ⊥) → I.left inputs.new file ≡ I.left inputs.old file }
    ensures later { (other : List ℕ) → I.faults inputs.old other ≤ I.faults inputs.new other }
{
    let Ok(file) = inputs.open(name) else {
        return Err(ReadFail::ReadFault);
    };
    let mut bytes = Vec::new(alloc);
    let mut piece = [0; 4096];
    loop {
        let room = limit - bytes.len();
        let into = &mut piece[..room.saturating_add(1).min(4096)];
        let Ok(count) = inputs.read(file, into) else {
            return Err(ReadFail::ReadFault);
        };
        if count == 0 {
            return Ok(Items::from_vec(bytes));
        }
        if count > room {
            return Err(ReadFail::TooLong);
        }
        if bytes.extend_from_slice(&into[..count]).is_err() {
            return Err(ReadFail::Memory);
        }
    }
}
