ghost use Rattle.std.specs.Prelude.{◌≡◌, IfOk, OnErr, false, true};
ghost use Rattle.std.specs.List.Sorted.{IsPermutation};
ghost use Rattle.shared_tape.specs.Runs.{records_of};
ghost use Rattle.run_merge.specs.Merging.{Gives, GivesInto, StandInOrder, order_of};
ghost use Rattle.run_merge.specs.Sorted.{AllHaveOrder, all_records};

use crate::heap_merge::HeapMerge;
use crate::ordered_runs::OrderedRuns;
use opclass::SortSpec;
use shared_tape::{Record, Tape, Tapes};
use std::alloc::{AllocError, Global};
use std::marker::Model;

/// A merge that is under way, seen as its order, the records that are left to give, and whether
/// they stand in order already.
#[derive(Debug, Drop)]
pub struct Merged {
    alloc: Global,
    source: Source,
}

/// Where the records come from.
#[derive(Debug, Drop)]
enum Source {
    Heap(HeapMerge),
    Ordered(OrderedRuns),
}

impl Model for Merged {
    ghost use Rattle.run_merge.specs.Merging.{Merging};

    ghost Value = { Merging };

    ghost use Rattle.run_merge.specs.Source.{merging_of};

    ghost view = { λ merged. merging_of merged.source };
}

/// The merge of all runs of these tapes, in their order. There may be no tape and no run.
pub fn merge(alloc: Global, tapes: Tapes, order: SortSpec) -> Result<Merged, AllocError>
    requires { AllHaveOrder order tapes }
    ensures order { IfOk result (λ merged. merged.order ≡ order) }
    ensures left { IfOk result (λ merged. IsPermutation (all_records tapes) merged.left) }
    ensures in_order { IfOk result (λ merged. merged.in_order ≡ false) }
{
    let merge = HeapMerge::new(alloc, tapes, order)?;
    Ok(Merged {
        alloc,
        source: Source::Heap(merge),
    })
}

impl Merged {
    /// The records of runs that stand in order already, as the parts of `merge_range` do. It takes
    /// no memory.
    pub fn in_order(parts: Tape) -> Merged
        requires { StandInOrder parts }
        ensures order { result.order ≡ order_of parts }
        ensures left { result.left ≡ records_of parts }
        ensures in_order { result.in_order ≡ true }
    {
        Merged {
            alloc: parts.alloc(),
            source: Source::Ordered(OrderedRuns::new(parts)),
        }
    }

    /// Gives the next record in order: one of those that are left, none of which is below it. None
    /// comes exactly where none is left. An error means that no memory was left, and then the merge
    /// is unchanged and may go on.
    pub fn next(&mut self) -> Result<Option<Record>, AllocError>
        ensures given { IfOk result (λ next. Gives self.old self.new next) }
        ensures kept { OnErr result (self.new ≡ self.old) }
    {
        let mut row = Record::new(self.alloc);
        if self.source.next_into(&mut row)? {
            Ok(Some(row))
        } else {
            Ok(None)
        }
    }

    /// Fills a record anew with the next one, as `next` gives it, in the memory that it has. False
    /// comes exactly where none is left. An error means that no memory was left, and then the merge
    /// is unchanged and may go on. Unless the answer is true, the record's values may be any.
    pub fn next_into(&mut self, row: &mut Record) -> Result<bool, AllocError>
        ensures given { IfOk result (λ given. GivesInto self.old self.new given row.new) }
        ensures kept { OnErr result (self.new ≡ self.old) }
    {
        self.source.next_into(row)
    }
}

impl Source {
    ghost use Rattle.run_merge.specs.Source.{merging_of};

    fn next_into(&mut self, row: &mut Record) -> Result<bool, AllocError>
        ensures given { IfOk result
            (λ given. GivesInto (merging_of self.old) (merging_of self.new) given row.new) }
        ensures kept { OnErr result (merging_of self.new ≡ merging_of self.old) }
    {
        match self {
            Source::Heap(merge) => merge.next_into(row),
            Source::Ordered(runs) => runs.next_into(row),
        }
    }
}
