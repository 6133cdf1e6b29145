ghost use Rattle.std.specs.Prelude.{◌≡◌, ◌+◌, ◌<◌, ◌≤◌, [], ◌∷◌, ◌++◌, IfErr, IfOk, List, OnErr, OnOk, length, ℕ};
ghost use Rattle.std.specs.List.Sorted.{IsPermutation};
ghost use Rattle.opclass.specs.declared.spec.SortPart.{SortPart};
ghost use Rattle.shared_tape.specs.Runs.{records_of};
ghost use Rattle.shared_tape.specs.Stored.{IsStorable};
ghost use Rattle.spool.specs.Spools.{AreBoundedRuns, TakesRecord, spooled};

use opclass::SortSpec;
use shared_tape::{Record, Run, RunBuf, Tape};
use std::alloc::{AllocError, Global};
use std::collections::VecDeque;
use std::marker::Model;

/// Records that are put one by one and come back as a tape of sorted runs, none longer than the
/// spool was told.
#[derive(Drop)]
pub struct Spool {
    run_rows: u32,
    /// Runs that are full and sorted.
    full: VecDeque<Run>,
    /// The run that records are put into, one after the other in the same memory.
    current: RunBuf,
}

impl Model for Spool {
    ghost use Rattle.std.specs.Prelude.{◌<◌, length};
    ghost use Rattle.spool.specs.Spools.{AreBoundedRuns, SpoolView, spooled};

    ghost Value = { SpoolView };

    ghost view = { λ spool. record {
      run_rows = spool.run_rows;
      order = spool.current.order;
      records = spooled spool.full.items spool.current.records;
    } };

    ghost invariant = { λ spool. record {
      full : AreBoundedRuns spool.current.order spool.run_rows spool.full.items;
      room : length spool.current.records < spool.run_rows;
    } };
}

impl Spool {
    /// A spool without records, which takes no memory.
    pub fn new(alloc: Global, run_rows: u32, order: SortSpec) -> Spool
        requires { 1 ≤ run_rows }
        ensures { result ≡ record { run_rows = run_rows; order = order; records = [] } }
    {
        Spool {
            run_rows,
            full: VecDeque::new(alloc),
            current: RunBuf::with_order(alloc, order),
        }
    }

    /// Keeps a record. On want of memory it hands the record back, and the spool is unchanged.
    pub fn put(&mut self, row: Record) -> Result<(), Record>
        requires { IsStorable self.old.order row }
        ensures ok { OnOk result (TakesRecord self.old row self.new) }
        ensures err { OnErr result (self.new ≡ self.old) }
        ensures handed_back { IfErr result (λ back. back ≡ row) }
    {
        match self.put_copy(&row) {
            Ok(()) => Ok(()),
            Err(_) => Err(row),
        }
    }

    /// Keeps a copy of a record, so that its owner can fill it anew for the next one. An error means
    /// that no memory was left, and then the spool is unchanged.
    pub fn put_copy(&mut self, row: &Record) -> Result<(), AllocError>
        requires { IsStorable self.old.order row.now }
        ensures ok { OnOk result (TakesRecord self.old row.now self.new) }
        ensures err { OnErr result (self.new ≡ self.old) }
    {
        if self.current.len() + 1 < self.run_rows as usize {
            self.current.put_copy(row)
        } else {
            self.put_last(row)
        }
    }

    // Keeps the record that makes a run full, and puts the run away.
    fn put_last(&mut self, row: &Record) -> Result<(), AllocError>
        requires { IsStorable self.old.order row.now }
        ensures ok { OnOk result (TakesRecord self.old row.now self.new) }
        ensures err { OnErr result (self.new ≡ self.old) }
    {
        self.full.reserve(1)?;
        self.current.put_copy(row)?;
        self.full.push_back_reserved(self.current.take_run());
        Ok(())
    }

    /// The tape of the records put, as often as they were put. An error means that no memory was
    /// left.
    pub fn finish(self) -> Result<Tape, AllocError>
        ensures records { IfOk result (λ tape. IsPermutation self.records (records_of tape)) }
        ensures runs { IfOk result (AreBoundedRuns self.order self.run_rows) }
    {
        let Spool {
            mut full,
            current,
            ..
        } = self;
        put_away(&mut full, current)?;
        Ok(Tape::from_runs(full))
    }
}

// Puts the run away that isn't full, sorted, unless it is empty.
fn put_away(full: &mut VecDeque<Run>, current: RunBuf) -> Result<(), AllocError>
    ensures records { OnOk result
        (IsPermutation (spooled full.old.items current.records) (records_of full.new.items)) }
    ensures runs { OnOk result ((most : ℕ) → AreBoundedRuns current.order most full.old.items
        → length current.records ≤ most → AreBoundedRuns current.order most full.new.items) }
{
    if 0 < current.len() {
        full.reserve(1)?;
        full.push_back_reserved(current.into_run());
    }
    Ok(())
}
