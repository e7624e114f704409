//! Inputs in memory.
ghost use Rattle.std.specs.Prelude.{◌≡◌, ◌≢◌, ℕ, List, ◌<◌, ◌^◌, ◌-◌, ◌==◌, length, vec_len, bytes_eq, position, Option, Some, Ok, is_some, is_ok, not, IfSome, IfOk, OnOk, OnErr, ◌≤◌, ◌+◌, ◌++◌, take, drop, min, true};
ghost use Rattle.std.specs.List.{HoldsAt};
ghost use Rattle.std.specs.Io.KnownBytes.{ReadConsumes};
ghost use Rattle.nb_io.specs.Faults.{risen, HasCause};
ghost use Rattle.nb_io.specs.Kept.{place_of, held_in, faults_in, name_at, left_at, SetsReader};

use crate::failing::FailingCalls;
use crate::{Failed, Inputs};
use nb_base::Bytes;
use std::alloc::{AllocError, Global};

/// A name and what it holds.
#[derive(Debug, Drop)]
pub struct MemoryFile {
    /// The name, as the bytes of its text.
    pub name: Bytes,
    /// What the name holds.
    pub bytes: Bytes,
}

/// Where the reading of a file stands.
#[derive(Clone, Copy, Debug, PartialEq, Eq)]
pub struct Reader {
    place: usize,
    opened: bool,
    faults: u64,
}

/// Names with their bytes, and calls that are to fail. It tells all.
///
/// A file's number is the place of its name in the list, so opening takes no memory. The names that it
/// doesn't hold have one count together. Where a name stands twice the first of them is the file; the
/// names need not differ.
#[derive(Debug, Drop)]
pub struct MemoryInputs {
    files: Vec<MemoryFile>,
    readers: Vec<Reader>,
    calls: FailingCalls,
    missing: u64,
    ghost few: { vec_len files < 2 ^ 32 },
    ghost one_each: { vec_len readers ≡ vec_len files },
}

impl MemoryInputs {
    ghost use Rattle.nb_io.specs.MemoryFiles.{faults_of, IsNew};

    /// Inputs that hold these files, with nothing opened and without faults. `fails` has the numbers
    /// of the calls that are to fail, counted from 1 over calls of `open` and `read` together.
    pub fn new(
        alloc: Global,
        files: Vec<MemoryFile>,
        fails: &[u32],
    ) -> Result<MemoryInputs, AllocError>
        requires { vec_len files < 2 ^ 32 }
        ensures { IfOk result (IsNew files.items fails.now) }
    {
        let blank = Reader {
            place: 0,
            opened: false,
            faults: 0,
        };
        let readers = vec![in alloc; blank; files.len()]?;
        Ok(MemoryInputs {
            files,
            readers,
            calls: FailingCalls::new(alloc, fails)?,
            missing: 0,
        })
    }

    /// How many calls for that name have failed; the count stays at 2^64 - 1.
    pub fn faults(&self, name: &str) -> u64
        ensures { result ≡ faults_of self.now name.now }
    {
        match find(&self.files, name.as_bytes()) {
            Some(place) => self.readers[place].faults,
            None => self.missing,
        }
    }
}

impl Reader {
    fn failed(self) -> Reader
        ensures place { result.place ≡ self.place }
        ensures opened { result.opened ≡ self.opened }
        ensures faults { result.faults ≡ risen self.faults }
        ensures later { self.faults ≤ result.faults }
    {
        Reader {
            faults: self.faults.saturating_add(1),
            ..self
        }
    }

    fn at_front(self) -> Reader
        ensures { result ≡ record self { place = 0; opened = true } }
    {
        Reader {
            place: 0,
            opened: true,
            ..self
        }
    }

    fn behind(self, count: usize) -> Reader
        requires { self.place + count < 2 ^ 64 }
        ensures { result ≡ record self { place = self.place + count } }
    {
        Reader {
            place: self.place + count,
            ..self
        }
    }
}

// Bytes from a place on, as many as there is room for.
fn copy_from(bytes: &[u8], place: usize, into: &mut [u8]) -> usize
    ensures count { result ≤ length into.new }
    ensures small { place + result < 2 ^ 64 }
    ensures copied { drop place bytes.now ≡ take result into.new ++ drop (place + result) bytes.now }
    ensures end { result ≡ 0 → 0 < length into.new → length bytes.now ≤ place }
    ensures least { result ≡ min (length bytes.now - place) (length into.new) }
{
    if place >= bytes.len() {
        return 0;
    }
    let rest = &bytes[place..];
    let count = rest.len().min(into.len());
    into[..count].copy_from_slice(&rest[..count]);
    count
}

#[tactic(auto, unfolding(crate::specs::Kept::place_of))]
fn find(files: &[MemoryFile], name: &[u8]) -> Option<usize>
    ensures value { result ≡ place_of files.now name.now }
    ensures within { IfSome result (λ place. place < length files.now) }
    ensures named { IfSome result (HoldsAt (λ file. bytes_eq file.name name.now ≡ true) files.now) }
{
    files.iter().position(|file| file.name.as_slice() == name)
}

fn set_reader(readers: &mut Vec<Reader>, place: usize, reader: Reader)
    requires { place < vec_len readers.old }
    ensures set { SetsReader readers.old.items readers.new.items place reader }
    ensures len { vec_len readers.new ≡ vec_len readers.old }
{
    readers[place] = reader;
}

// Raises the count of a name.
fn raise(files: &[MemoryFile], readers: &mut Vec<Reader>, missing: &mut u64, name: &[u8])
    requires { length files.now ≡ vec_len readers.old }
    ensures raised { faults_in files.now readers.new.items missing.new name.now ≡ risen (faults_in files.now readers.old.items missing.old name.now) }
    ensures apart { (other : List ℕ) → place_of files.now other ≢ place_of files.now name.now → faults_in files.now readers.new.items missing.new other ≡ faults_in files.now readers.old.items missing.old other }
    ensures later { (other : List ℕ) → faults_in files.now readers.old.items missing.old other ≤ faults_in files.now readers.new.items missing.new other }
    ensures names { (file : ℕ) → name_at files.now readers.new.items file ≡ name_at files.now readers.old.items file }
    ensures places { (file : ℕ) → left_at files.now readers.new.items file ≡ left_at files.now readers.old.items file }
    ensures len { vec_len readers.new ≡ vec_len readers.old }
{
    match find(files, name) {
        Some(place) => {
            let reader = readers[place];
            set_reader(readers, place, reader.failed());
        }
        None => *missing = missing.saturating_add(1),
    }
}

impl Inputs for MemoryInputs {
    ghost use Rattle.nb_io.specs.MemoryFiles.{held_of, faults_of, number_of, name_of_number, left_of, open_succeeds, read_succeeds, read_count, CountsCall};

    ghost held = { λ s name. held_in s.files.items name };

    ghost faults = { λ s name. faults_in s.files.items s.readers.items s.missing name };

    ghost name_of = { λ s file name. name_at s.files.items s.readers.items file ≡ Some name };

    ghost left = { λ s file. left_at s.files.items s.readers.items file };

    /// It fails exactly where the call's number is among those that are to fail or the name isn't
    /// held. The count of the name rises then by one, with those of the names that share it; else no
    /// count changes.
    fn open(&mut self, name: &str) -> Result<u32, Failed>
        ensures opened { IfOk result (λ file. name_of_number self.new file ≡ Some name.now) }
        ensures front { IfOk result (λ file. left_of self.new file ≡ held_of self.old name.now) }
        ensures names { (file : ℕ) (other : List ℕ) → name_of_number self.old file ≡ Some other → name_of_number self.new file ≡ Some other }
        ensures only { (file : ℕ) → result ≢ Ok file → name_of_number self.new file ≡ name_of_number self.old file }
        ensures others { (file : ℕ) → result ≢ Ok file → left_of self.new file ≡ left_of self.old file }
        ensures held { (other : List ℕ) → held_of self.new other ≡ held_of self.old other }
        ensures later { (other : List ℕ) → faults_of self.old other ≤ faults_of self.new other }
        ensures cause { HasCause (faults_of self.old name.now) (faults_of self.new name.now) result }
        ensures succeeds { is_ok result ≡ open_succeeds self.old name.now }
        ensures number { IfOk result (λ file. number_of self.old name.now ≡ Some file) }
        ensures kept { OnOk result ((other : List ℕ) → faults_of self.new other ≡ faults_of self.old other) }
        ensures raised { OnErr result (faults_of self.new name.now ≡ risen (faults_of self.old name.now)) }
        ensures apart { (other : List ℕ) → number_of self.old other ≢ number_of self.old name.now → faults_of self.new other ≡ faults_of self.old other }
        ensures call { CountsCall self.old self.new }
    {
        if !self.calls.fails_next() {
            if let Some(place) = find(&self.files, name.as_bytes()) {
                let reader = self.readers[place];
                set_reader(&mut self.readers, place, reader.at_front());
                return Ok(place as u32);
            }
        }
        raise(
            &self.files,
            &mut self.readers,
            &mut self.missing,
            name.as_bytes(),
        );
        Err(Failed)
    }

    /// It fails exactly where the call's number is among those that are to fail, and gives exactly as
    /// many bytes as are left and have room.
    fn read(&mut self, file: u32, into: &mut [u8]) -> Result<usize, Failed>
        requires opened { (name : List ℕ) × (name_of_number self.old file ≡ Some name) }
        requires room { 0 < length into.old }
        ensures count { IfOk result (λ count. count ≤ length into.new) }
        ensures bytes { ReadConsumes (left_of self.old file) (left_of self.new file) result into.new }
        ensures told { is_some (left_of self.new file) ≡ is_some (left_of self.old file) }
        ensures refused { OnErr result (left_of self.new file ≡ left_of self.old file) }
        ensures names { (other : ℕ) → name_of_number self.new other ≡ name_of_number self.old other }
        ensures others { (other : ℕ) → other ≢ file → left_of self.new other ≡ left_of self.old other }
        ensures held { (other : List ℕ) → held_of self.new other ≡ held_of self.old other }
        ensures later { (other : List ℕ) → faults_of self.old other ≤ faults_of self.new other }
        ensures cause { (name : List ℕ) → name_of_number self.old file ≡ Some name → HasCause (faults_of self.old name) (faults_of self.new name) result }
        ensures succeeds { is_ok result ≡ read_succeeds self.old }
        ensures least { IfOk result (λ count. IfSome (left_of self.old file) (λ rest. count ≡ read_count self.old rest (length into.new))) }
        ensures kept { OnOk result ((other : List ℕ) → faults_of self.new other ≡ faults_of self.old other) }
        ensures raised { (name : List ℕ) → name_of_number self.old file ≡ Some name → OnErr result (faults_of self.new name ≡ risen (faults_of self.old name)) }
        ensures apart { (name : List ℕ) (other : List ℕ) → name_of_number self.old file ≡ Some name → number_of self.old other ≢ number_of self.old name → faults_of self.new other ≡ faults_of self.old other }
        ensures call { CountsCall self.old self.new }
    {
        let place = file as usize;
        if self.calls.fails_next() {
            let name = self.files[place].name.as_slice();
            raise(&self.files, &mut self.readers, &mut self.missing, name);
            return Err(Failed);
        }
        let reader = self.readers[place];
        let count = copy_from(self.files[place].bytes.as_slice(), reader.place, into);
        set_reader(&mut self.readers, place, reader.behind(count));
        Ok(count)
    }
}
