ghost use Rattle.std.specs.Prelude.{◌≡◌, ◌≤◌, ◌<◌, ◌++◌, IfOk, OnOk, drop, length, take};
ghost use Rattle.std.specs.List.Sorted.{IsPermutation};
ghost use Rattle.shared_tape.specs.Runs.{IsAscending};
ghost use Rattle.run_merge.specs.Cutting.{part_of};
ghost use Rattle.run_merge.specs.Heads.{AreHeads, left_of};
ghost use Rattle.run_merge.specs.Sorted.{AllHaveOrder, IsSortedRecords, all_records};

use crate::cuts::Cuts;
use crate::head::Head;
use crate::heads::heads_between;
use crate::heap::move_on;
use opclass::SortSpec;
use shared_tape::{Run, Tapes};
use std::alloc::{AllocError, Global};

/// Merges the records of one part, counted from 0: those from cut `part` on, unless the part is the
/// first, and below the next cut, unless it is the last. An error means that no memory was left.
pub fn merge_range(
    alloc: Global,
    tapes: &Tapes,
    cuts: &Cuts,
    part: u32,
    order: &SortSpec,
) -> Result<Run, AllocError>
    requires part { part ≤ length cuts.now }
    requires order { AllHaveOrder order.now tapes.now }
    ensures order { IfOk result (λ run. run.order ≡ order.now) }
    ensures records { IfOk result (λ run. IsSortedRecords order.now
        (part_of order.now cuts.now part (all_records tapes.now)) run.records) }
{
    let mut heads = heads_between(alloc, tapes, cuts.around(part))?;
    let mut run = Run::empty(alloc, order)?;
    while !heads.is_empty() {
        append_first(tapes, &mut heads, &mut run)?;
    }
    Ok(run)
}

// Appends the record of the first head, and moves that head on.
fn append_first(tapes: &Tapes, heads: &mut Vec<Head>, run: &mut Run) -> Result<(), AllocError>
    requires some { 0 < length heads.old.items }
    requires heads { AreHeads tapes.now heads.old.items }
    requires order { AllHaveOrder run.old.order tapes.now }
    requires ascending { IsAscending run.old.order
        (run.old.records ++ take 1 (left_of tapes.now heads.old.items)) }
    ensures run { OnOk result (run.new ≡ record run.old {
      records = run.old.records ++ take 1 (left_of tapes.now heads.old.items);
    }) }
    ensures left { OnOk result (IsPermutation (drop 1 (left_of tapes.now heads.old.items))
        (left_of tapes.now heads.new.items)) }
    ensures heads { OnOk result (AreHeads tapes.now heads.new.items) }
{
    let first = heads[0];
    run.append_from(first.run(tapes), first.at)?;
    move_on(tapes, heads);
    Ok(())
}
