//! Inputs over the files of the system.
ghost use Rattle.std.specs.Prelude.{◌≡◌, ◌≢◌, Ok, ◌<◌, ◌≤◌, ℕ, List, length, IsTrue, None, is_some, IsSome, IsErr, IfOk, OnOk, OnErr, false};
ghost use Rattle.nb_io.specs.Faults.{risen, HasCause};
ghost use Rattle.std.specs.Io.KnownBytes.{ReadConsumes};
ghost use Rattle.nb_io.specs.Opened.{is_opened, opened_at, behind};

use crate::{Failed, Inputs};
use std::fs;
use std::io::Read;
use std::rt::Files;

/// Inputs over the files of the system. It tells no bytes and has one count, which is that of every
/// name. At most two files are opened in its life; a third opening raises the count and fails.
#[derive(Drop)]
pub struct FileInputs<R: Files + Drop> {
    rt: R,
    first: Option<R::File>,
    second: Option<R::File>,
    faults: u64,
}

impl<R: Files + Drop> FileInputs<R> {
    /// Inputs without opened files and without faults.
    pub fn new(rt: R) -> FileInputs<R>
        ensures first { result.first ≡ None }
        ensures second { result.second ≡ None }
        ensures faults { result.faults ≡ 0 }
    {
        FileInputs {
            rt,
            first: None,
            second: None,
            faults: 0,
        }
    }

    /// How many calls have failed; the count stays at 2^64 - 1.
    pub fn faults(&self) -> u64
        ensures { result ≡ self.now.faults }
    {
        self.faults
    }
}

impl<R: Files + Drop> Inputs for FileInputs<R> {
    ghost held = { λ _ _. None };

    ghost faults = { λ s _. s.faults };

    ghost name_of = { λ s file _. IsTrue (is_opened s.first s.second file) };

    ghost left = { λ _ _. None };

    /// It fails where two files are opened, and where the system doesn't open the file; a want of
    /// memory in there is such a fault. A file that was opened stays in its place.
    fn open(&mut self, name: &str) -> Result<u32, Failed>
        ensures opened { IfOk result (λ file. IsTrue (is_opened self.new.first self.new.second file)) }
        ensures names { (file : ℕ) → IsTrue (is_opened self.old.first self.old.second file) → IsTrue (is_opened self.new.first self.new.second file) }
        ensures only { (file : ℕ) → result ≢ Ok file → IsTrue (is_opened self.new.first self.new.second file) → IsTrue (is_opened self.old.first self.old.second file) }
        ensures first { result ≢ Ok 0 → self.new.first ≡ self.old.first }
        ensures second { result ≢ Ok 1 → self.new.second ≡ self.old.second }
        ensures next { IfOk result (λ file. is_opened self.old.first self.old.second file ≡ false) }
        ensures later { self.old.faults ≤ self.new.faults }
        ensures cause { HasCause self.old.faults self.new.faults result }
        ensures third { IsSome self.old.first → IsSome self.old.second → IsErr result }
        ensures kept { OnOk result (self.new.faults ≡ self.old.faults) }
        ensures raised { OnErr result (self.new.faults ≡ risen self.old.faults) }
    {
        if self.first.is_none() {
            if let Ok(file) = fs::open(&self.rt, name) {
                self.first = Some(file);
                return Ok(0);
            }
        } else if self.second.is_none() {
            if let Ok(file) = fs::open(&self.rt, name) {
                self.second = Some(file);
                return Ok(1);
            }
        }
        self.faults = self.faults.saturating_add(1);
        Err(Failed)
    }

    /// Where the opened file tells what it still gives, the bytes read are taken from its front. The
    /// other file stays as it was.
    fn read(&mut self, file: u32, into: &mut [u8]) -> Result<usize, Failed>
        requires opened { (name : List ℕ) × IsTrue (is_opened self.old.first self.old.second file) }
        requires room { 0 < length into.old }
        ensures count { IfOk result (λ count. count ≤ length into.new) }
        ensures names { (other : ℕ) → is_opened self.new.first self.new.second other ≡ is_opened self.old.first self.old.second other }
        ensures first { file ≢ 0 → self.new.first ≡ self.old.first }
        ensures second { file ≡ 0 → self.new.second ≡ self.old.second }
        ensures later { self.old.faults ≤ self.new.faults }
        ensures cause { HasCause self.old.faults self.new.faults result }
        ensures passed { ReadConsumes (behind R.File.remaining (opened_at self.old.first self.old.second file))
            (behind R.File.remaining (opened_at self.new.first self.new.second file)) result into.new }
        ensures kept { OnOk result (self.new.faults ≡ self.old.faults) }
        ensures raised { OnErr result (self.new.faults ≡ risen self.old.faults) }
    {
        let read = if file == 0 {
            read_opened(&mut self.first, into)
        } else {
            read_opened(&mut self.second, into)
        };
        if read.is_err() {
            self.faults = self.faults.saturating_add(1);
        }
        read
    }
}

// One read. A count beyond the piece's end is a fault.
fn read_opened<F: Read>(opened: &mut Option<F>, into: &mut [u8]) -> Result<usize, Failed>
    ensures count { IfOk result (λ count. count ≤ length into.new) }
    ensures opened { is_some opened.new ≡ is_some opened.old }
    ensures passed { ReadConsumes (behind F.remaining opened.old) (behind F.remaining opened.new) result into.new }
{
    let Some(file) = opened else {
        return Err(Failed);
    };
    match file.read(into) {
        Ok(count) if count <= into.len() => Ok(count),
        _ => Err(Failed),
    }
}
