ghost use Rattle.std.specs.Prelude.{◌≡◌, ◌≤◌, length, IfOk};

use crate::counted::counted;
use crate::files::{Failed, Files};
use crate::kept_file::{KeptFile, keep, take};
use crate::whole_io::{fill, write_whole};
use std::fs::OpenOptions;
use std::io::{Seek, SeekFrom};
use std::marker::Model;
use std::rt::Files as FileSystem;
use std::{fs, io};

/// Real files and standard output, by a runtime. Nothing is told of what they hold, and each kind
/// of call has one count of its failures, which contracts see. It takes no memory from an
/// allocator. A file that is read or grown in pieces stays open from one call to the next.
#[derive(Drop)]
pub struct RealFiles<'a, Rt: FileSystem> {
    rt: &'a Rt,
    // The file that was read last, and the one that was grown last.
    read: Option<KeptFile<Rt::File>>,
    grown: Option<KeptFile<Rt::File>>,
    read_faults: u64,
    write_faults: u64,
    ask_faults: u64,
    say_faults: u64,
}

impl<'a, Rt: FileSystem> Model for RealFiles<'a, Rt> {
    ghost use Rattle.pg_files.specs.Real.{FaultCounts};

    ghost Value = { FaultCounts };

    ghost view = { λ real. record {
      reads = real.read_faults;
      writes = real.write_faults;
      asks = real.ask_faults;
      says = real.say_faults;
    } };
}

impl<'a, Rt: FileSystem> RealFiles<'a, Rt> {
    ghost use Rattle.pg_files.specs.Real.{no_faults};

    /// The files and the standard output of this runtime, with no failure so far.
    pub fn new(rt: &'a Rt) -> RealFiles<'a, Rt>
        ensures { result ≡ no_faults }
    {
        RealFiles {
            rt,
            read: None,
            grown: None,
            read_faults: 0,
            write_faults: 0,
            ask_faults: 0,
            say_faults: 0,
        }
    }
}

impl<'a, Rt: FileSystem + Print> Files for RealFiles<'a, Rt> {
    ghost use Rattle.pg_files.specs.Real.{outside_of_counts};

    ghost outside = { outside_of_counts };

    fn read(&mut self, name: &str, at: u64, into: &mut [u8]) -> Result<usize, Failed> {
        counted(
            read_file(self.rt, &mut self.read, name, at, into),
            &mut self.read_faults,
        )
    }

    fn create(&mut self, name: &str) -> Result<(), Failed> {
        self.grown = None;
        counted(create_file(self.rt, name), &mut self.write_faults)
    }

    fn append(&mut self, name: &str, piece: &[u8]) -> Result<usize, Failed> {
        counted(
            append_file(self.rt, &mut self.grown, name, piece),
            &mut self.write_faults,
        )
    }

    fn there(&mut self, name: &str) -> Result<bool, Failed> {
        counted(fs::exists(self.rt, name), &mut self.ask_faults)
    }

    fn say(&mut self, text: &[u8]) -> Result<(), Failed> {
        counted(
            write_whole(&mut io::writer(self.rt), text),
            &mut self.say_faults,
        )
    }
}

// Reads from a place on until the buffer is full or the file ends, and answers how much came. The
// file is kept, unless reading it failed.
fn read_file<Rt: FileSystem>(
    rt: &Rt,
    kept: &mut Option<KeptFile<Rt::File>>,
    name: &str,
    at: u64,
    into: &mut [u8],
) -> io::Result<usize>
    ensures { IfOk result (λ count. count ≤ length into.old) }
{
    let mut file = match take(kept, name) {
        Some(file) => file,
        None => fs::open(rt, name)?,
    };
    file.seek(SeekFrom::Start(at))?;
    let count = fill(&mut file, into)?;
    keep(kept, name, file);
    Ok(count)
}

// Makes a file empty, whether it was there or not.
fn create_file<Rt: FileSystem>(rt: &Rt, name: &str) -> io::Result<()> {
    fs::create(rt, name)?;
    Ok(())
}

// Adds a whole piece at a file's end, and answers its length. An empty piece opens no file, since
// that would make one. The file is kept, unless writing it failed.
fn append_file<Rt: FileSystem>(
    rt: &Rt,
    kept: &mut Option<KeptFile<Rt::File>>,
    name: &str,
    piece: &[u8],
) -> io::Result<usize>
    ensures { IfOk result (λ count. count ≡ length piece.now) }
{
    if piece.is_empty() {
        return Ok(0);
    }
    let mut file = match take(kept, name) {
        Some(file) => file,
        None => open_end(rt, name)?,
    };
    write_whole(&mut file, piece)?;
    keep(kept, name, file);
    Ok(piece.len())
}

// Opens a file at its end, which is made where there is none.
fn open_end<Rt: FileSystem>(rt: &Rt, name: &str) -> io::Result<Rt::File> {
    let mut options = OpenOptions::new();
    options.append(true).create(true);
    options.open(rt, name)
}
