//! What a worker knows of the ranges of a BRIN index: a summary for each range of blocks of which
//! it has rows (`brinbuildCallbackParallel` of `brin.c`).

ghost use Rattle.std.specs.Prelude.{◌≡◌, ◌≤◌, [], ◌∷◌, ◌++◌, All, List, OnOk, length, true};
ghost use Rattle.opclass.specs.declared.spec.IndexSpec.{IndexSpec};
ghost use Rattle.shared_tape.specs.declared.stored.Record.{Record};
ghost use Rattle.build_leader.specs.Ranges.{HoldRanges};
ghost use Rattle.build_leader.specs.Tally.{AreOfColumns, TakesIn, ends_with};

use brin_summary::{Summary, SummedRange, SummedRanges};
use opclass::IndexSpec;
use pg_bytes::Items;
use shared_tape::Record;
use std::alloc::{AllocError, Global};

/// The rows that a worker took, summed up by their ranges.
#[derive(Drop)]
pub(crate) struct RangeTally {
    pub alloc: Global,
    pub pages_per_range: u32,
    pub columns: u16,
    pub ranges: Vec<SummedRange>,
}

impl RangeTally {
    /// The tally of no rows, for an index.
    pub fn new(alloc: Global, spec: &IndexSpec) -> RangeTally
        requires { length spec.now.keys ≤ 32 }
        ensures pages { result.pages_per_range ≡ spec.now.pages_per_range }
        ensures columns { result.columns ≡ length spec.now.keys }
        ensures none { result.ranges.items ≡ [] }
    {
        RangeTally {
            alloc,
            pages_per_range: spec.pages_per_range,
            columns: spec.keys.len() as u16,
            ranges: Vec::new(alloc),
        }
    }

    /// Takes a row in. Only the last range is asked whether it has the row's block, since a
    /// worker's blocks ascend. An error means that no memory was left, and then the tally is lost.
    pub fn add(&mut self, row: &Record) -> Result<(), AllocError>
        requires pages { 1 ≤ self.old.pages_per_range }
        requires keys { length row.now.keys ≡ self.old.columns }
        requires columns { AreOfColumns self.old.columns self.old.ranges.items }
        ensures pages { self.new.pages_per_range ≡ self.old.pages_per_range }
        ensures columns { self.new.columns ≡ self.old.columns }
        ensures alike { AreOfColumns self.new.columns self.new.ranges.items }
        ensures held { OnOk result ((spec : IndexSpec) (rows : List Record)
            → spec.pages_per_range ≡ self.old.pages_per_range
            → length spec.keys ≡ self.old.columns
            → HoldRanges spec rows self.old.ranges.items
            → HoldRanges spec (rows ++ row.now ∷ []) self.new.ranges.items) }
    {
        let range = row.ptr.block / self.pages_per_range;
        self.open(range)?;
        self.add_to_last(row)
    }

    /// What is known of the ranges.
    pub fn finish(self) -> SummedRanges
        ensures { result ≡ self.ranges.items }
    {
        Items::from_vec(self.ranges)
    }

    // Makes this range the last one, where it isn't yet.
    fn open(&mut self, range: u32) -> Result<(), AllocError>
        ensures pages { self.new.pages_per_range ≡ self.old.pages_per_range }
        ensures columns { self.new.columns ≡ self.old.columns }
        ensures opened { OnOk result (ends_with range self.new.ranges.items ≡ true) }
        ensures alike { AreOfColumns self.old.columns self.old.ranges.items
            → AreOfColumns self.old.columns self.new.ranges.items }
        ensures held { OnOk result ((spec : IndexSpec) (rows : List Record)
            → length spec.keys ≡ self.old.columns
            → HoldRanges spec rows self.old.ranges.items
            → HoldRanges spec rows self.new.ranges.items) }
    {
        if self.ends_with(range) {
            return Ok(());
        }
        let summary = Summary::empty(self.alloc, self.columns)?;
        self.ranges.push(SummedRange { range, summary })?;
        Ok(())
    }

    // Whether the last range is this one.
    fn ends_with(&self, range: u32) -> bool
        ensures { result ≡ ends_with range self.now.ranges.items }
    {
        match self.ranges.last() {
            Some(last) => last.range == range,
            None => false,
        }
    }

    // Takes a row into the last range.
    fn add_to_last(&mut self, row: &Record) -> Result<(), AllocError>
        requires some { 1 ≤ length self.old.ranges.items }
        requires columns { AreOfColumns (length row.now.keys) self.old.ranges.items }
        ensures pages { self.new.pages_per_range ≡ self.old.pages_per_range }
        ensures columns { self.new.columns ≡ self.old.columns }
        ensures alike { AreOfColumns (length row.now.keys) self.new.ranges.items }
        ensures taken { OnOk result
            (TakesIn row.now.keys self.old.ranges.items self.new.ranges.items) }
    {
        let Some(last) = self.ranges.last_mut() else {
            unreachable!()
        };
        last.summary.add(&row.keys)
    }
}
