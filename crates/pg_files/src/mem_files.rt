ghost use Rattle.std.specs.Prelude.{◌≡◌, ◌↔◌, ◌⊎◌, ◌<◌, ◌≤◌, [], ◌∷◌, ◌++◌, length, min, take, is_some, IsErr, IsNone, IsTrue, IfOk, OnOk, OnErr, MatchOption};
ghost use Rattle.pg_files.specs.Faults.{most_faults};
ghost use Rattle.pg_files.specs.Files.{SetsFile, content};
ghost use Rattle.pg_files.specs.Memory.{read_count, read_over};
ghost use Rattle.pg_files.specs.Outside.{OnlyAsks, OnlyReads, OnlySays, OnlyWrites, SameOthers};

use crate::counted::counted;
use crate::files::{Failed, Files};
use crate::named_files::{NamedFile, grow_file, place_of, set_file};
use pg_bytes::Bytes;
use std::alloc::{AllocError, Global};

/// Files in memory, for tests and drills. They tell all: the bytes of each file, what was said, and
/// how many calls of each kind failed. A call fails where `fail_at` set its number, where a read's
/// file is absent, and where no memory is left.
#[derive(Debug, Drop)]
pub struct MemFiles {
    alloc: Global,
    files: Vec<NamedFile>,
    said: Vec<u8>,
    failing: Vec<u64>,
    // How many bytes a read or an append moves at most, less one: there is no bound of none.
    beyond_one: usize,
    calls: u64,
    read_faults: u64,
    write_faults: u64,
    ask_faults: u64,
    say_faults: u64,
    refused: u64,
}

impl MemFiles {
    ghost use Rattle.pg_files.specs.Memory.{GivesAllThatFits, called, fresh, is_set_to_fail, memory, outside_of, refused_unless_set, with_ask_fault, with_files, with_read_fault, with_say_fault, with_write_fault};

    /// No files, nothing said, no call set to fail, no bound on the bytes that a call moves, and
    /// all counts 0. It takes no memory.
    pub fn new(alloc: Global) -> MemFiles
        ensures { memory result ≡ fresh }
    {
        MemFiles {
            alloc,
            files: Vec::new(alloc),
            said: Vec::new(alloc),
            failing: Vec::new(alloc),
            beyond_one: usize::MAX,
            calls: 0,
            read_faults: 0,
            write_faults: 0,
            ask_faults: 0,
            say_faults: 0,
            refused: 0,
        }
    }

    /// Sets a file, whether it was there or not. It counts as no call. On want of memory all is as
    /// before.
    pub fn put(&mut self, name: &str, bytes: Bytes) -> Result<(), AllocError>
        ensures set { OnOk result
            (SetsFile name.now bytes (memory self.old).files (memory self.new).files) }
        ensures others { OnOk result (memory self.new
            ≡ with_files (memory self.new).files (memory self.old)) }
        ensures err { OnErr result (memory self.new ≡ memory self.old) }
    {
        set_file(self.alloc, &mut self.files, name, bytes.into_vec())
    }

    /// Makes the call with this number fail, where the calls of `Files` are numbered from 1. On
    /// want of memory all is as before.
    pub fn fail_at(&mut self, call: u64) -> Result<(), AllocError>
        ensures ok { OnOk result (memory self.new
            ≡ record (memory self.old) { failing = (memory self.old).failing ++ call ∷ [] }) }
        ensures err { OnErr result (memory self.new ≡ memory self.old) }
    {
        self.failing.push(call)?;
        Ok(())
    }

    /// From now on a read or an append moves at most so many bytes. It takes no memory.
    pub fn piece(&mut self, most: usize)
        requires { 1 ≤ most }
        ensures { memory self.new ≡ record (memory self.old) { most = most } }
    {
        self.beyond_one = most - 1;
    }

    /// The bytes of a file, or none where no such file is there.
    pub fn file(&self, name: &str) -> Option<&[u8]>
        ensures { MatchOption result ((memory self.now).files name.now ≡ None) (λ bytes.
            (memory self.now).files name.now ≡ Some bytes.now) }
    {
        let place = place_of(&self.files, name)?;
        Some(&self.files[place].bytes)
    }

    /// What was said so far.
    pub fn said(&self) -> &[u8]
        ensures { result.now ≡ (memory self.now).said }
    {
        &self.said
    }

    /// How many calls of `Files` found no memory here. Each of them failed, and was counted as a
    /// failure of its kind too.
    pub fn refused(&self) -> u64
        ensures { result ≡ (memory self.now).refused }
    {
        self.refused
    }

    /// Reads as `Files` has it: as much as there is, fits and is moved at most. It fails exactly
    /// where it is set to or the file is absent, and then the buffer is as before.
    pub fn read(&mut self, name: &str, at: u64, into: &mut [u8]) -> Result<usize, Failed>
        ensures failed { IsErr result
            ↔ (IsTrue (is_set_to_fail (memory self.old))
            ⊎ ((memory self.old).files name.now ≡ None)) }
        ensures whole { IfOk result (λ count.
            GivesAllThatFits (memory self.old).most ((memory self.old).files name.now)
            at count into.old into.new) }
        ensures untouched { OnErr result (into.new ≡ into.old) }
        ensures after_ok { OnOk result (memory self.new ≡ called (memory self.old)) }
        ensures after_err { OnErr result (memory self.new
            ≡ with_read_fault (called (memory self.old))) }
        ensures only { OnlyReads (outside_of (memory self.old)) (outside_of (memory self.new)) }
    {
        counted(
            self.try_read(name, at as usize, into),
            &mut self.read_faults,
        )
    }

    /// Makes a file empty as `Files` has it. It fails exactly where it is set to or finds no
    /// memory, and then the files are as before.
    pub fn create(&mut self, name: &str) -> Result<(), Failed>
        ensures failed { (memory self.old).refused < most_faults → IsErr result
            ↔ (IsTrue (is_set_to_fail (memory self.old))
            ⊎ ((memory self.old).refused < (memory self.new).refused)) }
        ensures emptied { OnOk result
            (SetsFile name.now [] (memory self.old).files (memory self.new).files) }
        ensures after_ok { OnOk result (memory self.new
            ≡ with_files (memory self.new).files (called (memory self.old))) }
        ensures after_err { OnErr result (memory self.new
            ≡ with_write_fault (refused_unless_set (memory self.old))) }
        ensures only { OnlyWrites name.now
            (outside_of (memory self.old)) (outside_of (memory self.new)) }
    {
        counted(self.try_create(name), &mut self.write_faults)
    }

    /// Adds a piece at a file's end as `Files` has it: the whole, or as much as is moved at most.
    /// It fails exactly where it is set to or finds no memory, and then the files are as before.
    pub fn append(&mut self, name: &str, piece: &[u8]) -> Result<usize, Failed>
        ensures failed { (memory self.old).refused < most_faults → IsErr result
            ↔ (IsTrue (is_set_to_fail (memory self.old))
            ⊎ ((memory self.old).refused < (memory self.new).refused)) }
        ensures count { IfOk result (λ count.
            count ≡ min (memory self.old).most (length piece.now)) }
        ensures appended { IfOk result (λ count. 0 < length piece.now
            → SetsFile name.now
            (content ((memory self.old).files name.now) ++ take count piece.now)
            (memory self.old).files (memory self.new).files) }
        ensures empty { length piece.now ≡ 0 → (memory self.new).files ≡ (memory self.old).files }
        ensures after_ok { OnOk result (memory self.new
            ≡ with_files (memory self.new).files (called (memory self.old))) }
        ensures after_err { OnErr result (memory self.new
            ≡ with_write_fault (refused_unless_set (memory self.old))) }
        ensures only { OnlyWrites name.now
            (outside_of (memory self.old)) (outside_of (memory self.new)) }
    {
        counted(self.try_append(name, piece), &mut self.write_faults)
    }

    /// Whether a file is there, as `Files` has it. It fails exactly where it is set to.
    pub fn there(&mut self, name: &str) -> Result<bool, Failed>
        ensures failed { IsErr result ↔ IsTrue (is_set_to_fail (memory self.old)) }
        ensures found { IfOk result (λ found.
            found ≡ is_some ((memory self.old).files name.now)) }
        ensures after_ok { OnOk result (memory self.new ≡ called (memory self.old)) }
        ensures after_err { OnErr result (memory self.new
            ≡ with_ask_fault (called (memory self.old))) }
        ensures only { OnlyAsks (outside_of (memory self.old)) (outside_of (memory self.new)) }
    {
        counted(self.try_there(name), &mut self.ask_faults)
    }

    /// Says a whole text as `Files` has it. It fails exactly where it is set to or finds no memory,
    /// and then nothing was said.
    pub fn say(&mut self, text: &[u8]) -> Result<(), Failed>
        ensures failed { (memory self.old).refused < most_faults → IsErr result
            ↔ (IsTrue (is_set_to_fail (memory self.old))
            ⊎ ((memory self.old).refused < (memory self.new).refused)) }
        ensures after_ok { OnOk result (memory self.new
            ≡ record (called (memory self.old)) { said = (memory self.old).said ++ text.now }) }
        ensures after_err { OnErr result (memory self.new
            ≡ with_say_fault (refused_unless_set (memory self.old))) }
        ensures only { OnlySays (outside_of (memory self.old)) (outside_of (memory self.new)) }
    {
        counted(self.try_say(text), &mut self.say_faults)
    }

    // Counts a call, which fails where it is set to.
    fn begin(&mut self) -> Result<(), Failed>
        ensures set { IsErr result ↔ IsTrue (is_set_to_fail (memory self.old)) }
        ensures counted { memory self.new ≡ called (memory self.old) }
    {
        self.calls = self.calls.saturating_add(1);
        if self.failing.contains(&self.calls) {
            return Err(Failed);
        }
        Ok(())
    }

    // How many of so many bytes a read or an append moves.
    fn moved(&self, count: usize) -> usize
        ensures { result ≡ min (memory self.now).most count }
    {
        count.min(self.beyond_one.saturating_add(1))
    }

    // A read whose failure isn't counted yet. So are the other four.
    fn try_read(&mut self, name: &str, at: usize, into: &mut [u8]) -> Result<usize, Failed>
        ensures failed { IsErr result
            ↔ (IsTrue (is_set_to_fail (memory self.old))
            ⊎ ((memory self.old).files name.now ≡ None)) }
        ensures whole { IfOk result (λ count.
            GivesAllThatFits (memory self.old).most ((memory self.old).files name.now)
            at count into.old into.new) }
        ensures untouched { OnErr result (into.new ≡ into.old) }
        ensures after { memory self.new ≡ called (memory self.old) }
    {
        self.begin()?;
        match self.read_file(name, at, into) {
            Some(count) => Ok(count),
            None => Err(Failed),
        }
    }

    // Reads what there is of a file, fits and is moved. None where no such file is there.
    fn read_file(&self, name: &str, at: usize, into: &mut [u8]) -> Option<usize>
        ensures count { MatchOption result ((memory self.now).files name.now ≡ None) (λ count.
            GivesAllThatFits (memory self.now).most ((memory self.now).files name.now)
            at count into.old into.new) }
        ensures kept { IsNone result → into.new ≡ into.old }
    {
        let bytes = self.file(name)?;
        let most = self.moved(into.len());
        Some(copy_from(bytes, at, most, into))
    }

    fn try_create(&mut self, name: &str) -> Result<(), Failed>
        ensures failed { (memory self.old).refused < most_faults → IsErr result
            ↔ (IsTrue (is_set_to_fail (memory self.old))
            ⊎ ((memory self.old).refused < (memory self.new).refused)) }
        ensures emptied { OnOk result
            (SetsFile name.now [] (memory self.old).files (memory self.new).files) }
        ensures after_ok { OnOk result (memory self.new
            ≡ with_files (memory self.new).files (called (memory self.old))) }
        ensures after_err { OnErr result (memory self.new ≡ refused_unless_set (memory self.old)) }
        ensures rest { memory self.new ≡ record (called (memory self.old)) {
          files = (memory self.new).files;
          refused = (memory self.new).refused;
        } }
        ensures others { SameOthers name.now (memory self.old).files (memory self.new).files }
    {
        self.begin()?;
        let empty = Vec::new(self.alloc);
        counted(
            set_file(self.alloc, &mut self.files, name, empty),
            &mut self.refused,
        )
    }

    fn try_append(&mut self, name: &str, piece: &[u8]) -> Result<usize, Failed>
        ensures failed { (memory self.old).refused < most_faults → IsErr result
            ↔ (IsTrue (is_set_to_fail (memory self.old))
            ⊎ ((memory self.old).refused < (memory self.new).refused)) }
        ensures count { IfOk result (λ count.
            count ≡ min (memory self.old).most (length piece.now)) }
        ensures appended { IfOk result (λ count. 0 < length piece.now
            → SetsFile name.now
            (content ((memory self.old).files name.now) ++ take count piece.now)
            (memory self.old).files (memory self.new).files) }
        ensures empty { length piece.now ≡ 0 → (memory self.new).files ≡ (memory self.old).files }
        ensures after_ok { OnOk result (memory self.new
            ≡ with_files (memory self.new).files (called (memory self.old))) }
        ensures after_err { OnErr result (memory self.new ≡ refused_unless_set (memory self.old)) }
        ensures rest { memory self.new ≡ record (called (memory self.old)) {
          files = (memory self.new).files;
          refused = (memory self.new).refused;
        } }
        ensures others { SameOthers name.now (memory self.old).files (memory self.new).files }
    {
        self.begin()?;
        if piece.is_empty() {
            return Ok(0);
        }
        let count = self.moved(piece.len());
        counted(
            grow_file(self.alloc, &mut self.files, name, &piece[..count]),
            &mut self.refused,
        )?;
        Ok(count)
    }

    fn try_there(&mut self, name: &str) -> Result<bool, Failed>
        ensures failed { IsErr result ↔ IsTrue (is_set_to_fail (memory self.old)) }
        ensures found { IfOk result (λ found.
            found ≡ is_some ((memory self.old).files name.now)) }
        ensures after { memory self.new ≡ called (memory self.old) }
    {
        self.begin()?;
        Ok(self.file(name).is_some())
    }

    fn try_say(&mut self, text: &[u8]) -> Result<(), Failed>
        ensures failed { (memory self.old).refused < most_faults → IsErr result
            ↔ (IsTrue (is_set_to_fail (memory self.old))
            ⊎ ((memory self.old).refused < (memory self.new).refused)) }
        ensures after_ok { OnOk result (memory self.new
            ≡ record (called (memory self.old)) { said = (memory self.old).said ++ text.now }) }
        ensures after_err { OnErr result (memory self.new ≡ refused_unless_set (memory self.old)) }
        ensures rest { memory self.new ≡ record (called (memory self.old)) {
          said = (memory self.new).said;
          refused = (memory self.new).refused;
        } }
    {
        self.begin()?;
        counted(self.said.extend_from_slice(text), &mut self.refused)
    }
}

impl Files for MemFiles {
    ghost use Rattle.pg_files.specs.Memory.{memory, outside_of};

    ghost outside = { λ files. outside_of (memory files) };

    fn read(&mut self, name: &str, at: u64, into: &mut [u8]) -> Result<usize, Failed> {
        MemFiles::read(self, name, at, into)
    }

    fn create(&mut self, name: &str) -> Result<(), Failed> {
        MemFiles::create(self, name)
    }

    fn append(&mut self, name: &str, piece: &[u8]) -> Result<usize, Failed> {
        MemFiles::append(self, name, piece)
    }

    fn there(&mut self, name: &str) -> Result<bool, Failed> {
        MemFiles::there(self, name)
    }

    fn say(&mut self, text: &[u8]) -> Result<(), Failed> {
        MemFiles::say(self, text)
    }
}

// Copies what there is from a place on, fits and is moved at most, and answers how much.
fn copy_from(bytes: &[u8], at: usize, most: usize, into: &mut [u8]) -> usize
    ensures count { result ≡ read_count most bytes.now at into.old }
    ensures buffer { into.new ≡ read_over most bytes.now at into.old }
{
    let rest = &bytes[at.min(bytes.len())..];
    let count = rest.len().min(into.len()).min(most);
    into[..count].copy_from_slice(&rest[..count]);
    count
}
