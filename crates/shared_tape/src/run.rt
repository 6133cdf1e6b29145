ghost use Rattle.std.specs.Prelude.{◌≡◌, [], ◌∷◌, ◌++◌, ◌<◌, length, map, slice_get, All, IfOk, MatchOption, OnErr, OnOk, Some};
ghost use Rattle.std.specs.List.Sorted.{IsPermutation};
ghost use Rattle.std.specs.Option.{option_copied};
ghost use Rattle.shared_tape.specs.Runs.{IsAscending, IsRun, order_list, with_record_of};
ghost use Rattle.shared_tape.specs.Places.{IsSoundRun, head_of, records_at};
ghost use Rattle.shared_tape.specs.Stored.{IsStorable};

use crate::laid::{Laid, lay, make_room};
use crate::place::head_of;
use crate::reader::{counted_at, read_record, stored_at};
use crate::run_buf::RunBuf;
use crate::stored::Record;
use opclass::SortSpec;
use pg_bytes::Items;
use std::alloc::{AllocError, Global};
use std::marker::Model;

/// Records in their order, seen as that order and the list of those that weren't taken.
#[derive(Debug, Drop)]
pub struct Run {
    order: SortSpec,
    laid: Laid,
    /// How many records were taken.
    taken: usize,
}

impl Model for Run {
    ghost use Rattle.std.specs.Prelude.{drop};
    ghost use Rattle.shared_tape.specs.Runs.{RunView};
    ghost use Rattle.shared_tape.specs.Places.{IsSoundRun, head_of, records_at};

    ghost Value = { RunView };

    ghost view = { λ run. record {
      order = run.order;
      records = records_at run.order run.laid.bytes.items (drop run.taken run.laid.starts.items);
    } };

    ghost invariant = { λ run.
        IsSoundRun run.order run.laid.bytes.items run.laid.starts.items run.taken };
}

impl Run {
    /// The run of records that were laid in order.
    pub(crate) fn of(order: SortSpec, laid: Laid) -> Run
        requires { IsSoundRun order laid.bytes.items laid.starts.items 0 }
        ensures { result ≡ record {
          order = order;
          records = records_at order laid.bytes.items laid.starts.items;
        } }
    {
        Run {
            order,
            laid,
            taken: 0,
        }
    }

    /// The run of these records in this order.
    pub fn build(alloc: Global, records: Vec<Record>, order: &SortSpec) -> Result<Run, AllocError>
        requires { All (IsStorable order.now) records.items }
        ensures order { IfOk result (λ run. run.order ≡ order.now) }
        ensures records { IfOk result (λ run. IsPermutation records.items run.records) }
        ensures run { IfOk result IsRun }
    {
        let mut buf = RunBuf::new(alloc, order)?;
        for row in records {
            if buf.put(row).is_err() {
                return Err(AllocError);
            }
        }
        Ok(buf.into_run())
    }

    /// A run of this order without records.
    pub fn empty(alloc: Global, order: &SortSpec) -> Result<Run, AllocError>
        ensures { IfOk result (λ run. run ≡ record { order = order.now; records = [] }) }
    {
        Ok(Run {
            order: Items::from_vec(order.as_slice().to_vec(alloc)?),
            laid: Laid::new(alloc),
            taken: 0,
        })
    }

    /// How many records the run has.
    pub fn len(&self) -> usize
        ensures length { result ≡ length self.now.records }
        ensures run { IsRun self.now }
    {
        self.laid.starts.len() - self.taken
    }

    /// The order bytes of the record at a place, counted from 0: unsigned, they compare as the
    /// records do.
    pub fn order_at(&self, at: usize) -> &[u8]
        requires { at < length self.now.records }
        ensures { slice_get (order_list self.now) at ≡ Some result.now }
    {
        counted_at(&self.laid.bytes, self.laid.starts[self.taken + at])
    }

    /// The order bytes of the first record. None comes exactly where the run is empty.
    pub fn peek(&self) -> Option<&[u8]>
        ensures first { option_copied result ≡ slice_get (order_list self.now) 0 }
        ensures run { IsRun self.now }
    {
        if self.len() == 0 {
            None
        } else {
            Some(self.order_at(0))
        }
    }

    /// The head of the order bytes at a place, counted from 0: the first 16 as one number, with
    /// zeros where there are fewer. Heads compare as the order bytes do, but where they are equal.
    pub fn head_at(&self, at: usize) -> u128
        requires { at < length self.now.records }
        ensures { slice_get (map head_of (order_list self.now)) at ≡ Some result }
    {
        head_of(self.order_at(at))
    }

    /// The record at a place, counted from 0. An error means that no memory was left.
    pub fn read_at(&self, at: usize) -> Result<Record, AllocError>
        requires { at < length self.now.records }
        ensures { IfOk result (λ row. slice_get self.now.records at ≡ Some row) }
    {
        let mut row = Record::new(*self.laid.bytes.allocator());
        self.read_into(at, &mut row)?;
        Ok(row)
    }

    /// Fills a record anew with the one at a place, counted from 0, in the memory that it has. An
    /// error means that no memory was left, and then its values may be any.
    pub fn read_into(&self, at: usize, row: &mut Record) -> Result<(), AllocError>
        requires { at < length self.now.records }
        ensures { OnOk result (slice_get self.now.records at ≡ Some row.new) }
    {
        read_record(
            *self.laid.bytes.allocator(),
            &self.laid.bytes,
            &self.order,
            self.laid.starts[self.taken + at],
            row,
        )
    }

    /// Takes the first record. None comes exactly where the run is empty. An error means that no
    /// memory was left, and then the run is unchanged.
    pub fn next(&mut self) -> Result<Option<Record>, AllocError>
        ensures ok { IfOk result (λ next. MatchOption next
            ((self.old.records ≡ []) × (self.new ≡ self.old))
            (λ first. self.old ≡ record self.new { records = first ∷ self.new.records })) }
        ensures err { OnErr result (self.new ≡ self.old) }
    {
        if self.laid.starts.len() == self.taken {
            return Ok(None);
        }
        let row = self.read_at(0)?;
        self.taken += 1;
        Ok(Some(row))
    }

    /// Adds the record at a place of another run behind this run's records. An error means that no
    /// memory was left, and then this run is unchanged.
    pub fn append_from(&mut self, other: &Run, at: usize) -> Result<(), AllocError>
        requires order { other.now.order ≡ self.old.order }
        requires within { at < length other.now.records }
        requires ascending { IsAscending self.old.order
            (with_record_of other.now at self.old.records) }
        ensures ok { OnOk result
            (self.new ≡ record self.old { records = with_record_of other.now at self.old.records }) }
        ensures err { OnErr result (self.new ≡ self.old) }
    {
        let start = other.laid.starts[other.taken + at];
        let stored = stored_at(&other.laid.bytes, start);
        make_room(&mut self.laid, stored.len(), 1)?;
        lay(&mut self.laid, stored);
        Ok(())
    }
}
