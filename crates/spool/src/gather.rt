ghost use Rattle.std.specs.Prelude.{◌≡◌, ◌≤◌, [], false, IfOk, IsErr, OnErr, OnOk};
ghost use Rattle.std.specs.List.Sorted.{IsPermutation};
ghost use Rattle.gin_entry.specs.EntryOrder.{entry_order};
ghost use Rattle.shared_tape.specs.Runs.{records_of};
ghost use Rattle.spool.specs.Spools.{AreBoundedRuns};
ghost use Rattle.spool.specs.Gathers.{AreStorableEntries, IsSpent, TakesRow};
ghost use Rattle.spool.specs.Pass.{IsOpenOf};

use crate::entry_spool::EntrySpool;
use opclass::KeyVal;
use pg_bytes::RowPtr;
use shared_tape::Tape;
use std::alloc::{AllocError, Global};
use std::marker::Model;
use std::mem;

/// The entries of rows that are put one by one, which come back as a tape of sorted runs, none
/// longer than the gather was told. Once memory has run out, it takes and gives nothing more.
#[derive(Drop)]
pub struct Gather {
    alloc: Global,
    run_rows: u32,
    state: State,
}

/// How far a gather has come.
#[derive(Drop)]
enum State {
    /// No row was put.
    Fresh,
    /// Rows were put.
    Open(EntrySpool),
    /// Memory ran out.
    Spent,
}

impl Model for Gather {
    ghost use Rattle.std.specs.Prelude.{◌≤◌};
    ghost use Rattle.spool.specs.Gathers.{GatherView};
    ghost use Rattle.spool.specs.Pass.{Suits, held_by, is_spent};

    ghost Value = { GatherView };

    ghost view = { λ gather. record {
      run_rows = gather.run_rows;
      spent = is_spent gather.state;
      records = held_by gather.state;
    } };

    ghost invariant = { λ gather. record {
      some : 1 ≤ gather.run_rows;
      suits : Suits gather.run_rows gather.state;
    } };
}

impl Gather {
    /// A gather without rows, which takes no memory. A run of its tape has at most so many records.
    pub fn new(alloc: Global, run_rows: u32) -> Gather
        requires { 1 ≤ run_rows }
        ensures { result ≡ record { run_rows = run_rows; spent = false; records = [] } }
    {
        Gather {
            alloc,
            run_rows,
            state: State::Fresh,
        }
    }

    /// Puts the entries of a row. An error means that no memory was left, and then every later call
    /// answers the same.
    pub fn put(&mut self, value: &KeyVal, ptr: RowPtr) -> Result<(), AllocError>
        requires { AreStorableEntries value.now ptr }
        ensures ok { OnOk result (TakesRow self.old value.now ptr self.new) }
        ensures run_rows { self.new.run_rows ≡ self.old.run_rows }
        ensures err { OnErr result (IsSpent self.new) }
        ensures spent { IsSpent self.old → IsErr result }
    {
        let mut entries = self.take_entries()?;
        entries.put(value, ptr)?;
        self.state = State::Open(entries);
        Ok(())
    }

    // What entries are put into. The gather is spent unless it is given back.
    fn take_entries(&mut self) -> Result<EntrySpool, AllocError>
        ensures taken { IfOk result (λ entries. IsOpenOf self.old entries) }
        ensures run_rows { self.new.run_rows ≡ self.old.run_rows }
        ensures left { IsSpent self.new }
        ensures spent { IsSpent self.old → IsErr result }
    {
        match mem::replace(&mut self.state, State::Spent) {
            State::Fresh => EntrySpool::new(self.alloc, self.run_rows),
            State::Open(entries) => Ok(entries),
            State::Spent => Err(AllocError),
        }
    }

    /// The tape of the records of the rows put, one for each entry of each row. An error means that
    /// no memory was left.
    pub fn finish(self) -> Result<Tape, AllocError>
        ensures records { IfOk result (λ tape. IsPermutation self.records (records_of tape)) }
        ensures runs { IfOk result (AreBoundedRuns entry_order self.run_rows) }
        ensures spent { IsSpent self → IsErr result }
    {
        match self.state {
            State::Fresh => Ok(Tape::new(self.alloc)),
            State::Open(entries) => entries.finish(),
            State::Spent => Err(AllocError),
        }
    }
}
