ghost use Rattle.std.specs.Prelude.{◌≡◌, ◌<◌, ◌++◌, [], All, IfOk, OnOk, OnErr, filter, length, slice_index_or};
ghost use Rattle.std.specs.List.{flat_map};
ghost use Rattle.std.specs.List.Sorted.{IsPermutation};
ghost use Rattle.std.specs.Option.{option_copied};
ghost use Rattle.run_merge.specs.Cutting.{is_between};
ghost use Rattle.run_merge.specs.Heads.{AreHeads, IsHead, left_of, run_at};
ghost use Rattle.run_merge.specs.Pass.{HeadsGive, all_between, between_of, records_between};

use crate::between::{Between, places_in};
use crate::head::Head;
use crate::heap::{make_heap, move_on};
use shared_tape::{Record, Tapes};
use std::alloc::{AllocError, Global};

/// The heads of all runs that have records between two cuts, as a heap.
pub(crate) fn heads_between(
    alloc: Global,
    tapes: &Tapes,
    between: Between,
) -> Result<Vec<Head>, AllocError>
    ensures heap { IfOk result (λ heads. AreHeads tapes.now heads.items) }
    ensures left { IfOk result (λ heads. IsPermutation
        (all_between (option_copied between.entry.low) (option_copied between.entry.high) tapes.now)
        (left_of tapes.now heads.items)) }
{
    let mut heads = Vec::new(alloc);
    for tape in 0..tapes.len() {
        add_tape(tapes, tape, between, &mut heads)?;
    }
    make_heap(tapes, &mut heads);
    Ok(heads)
}

/// Fills a record with the first that the heads have left, and moves the heads on. False comes
/// exactly where they have none left. An error means that no memory was left.
pub(crate) fn give_first(
    tapes: &Tapes,
    heads: &mut Vec<Head>,
    row: &mut Record,
) -> Result<bool, AllocError>
    requires heap { AreHeads tapes.now heads.old.items }
    ensures heap { AreHeads tapes.now heads.new.items }
    ensures given { IfOk result (λ given.
        HeadsGive tapes.now heads.old.items heads.new.items given row.new) }
    ensures kept { OnErr result (heads.new.items ≡ heads.old.items) }
{
    let Some(first) = heads.first() else {
        return Ok(false);
    };
    first.run(tapes).read_into(first.at, row)?;
    move_on(tapes, heads);
    Ok(true)
}

// Adds the heads of a tape's runs.
fn add_tape(
    tapes: &Tapes,
    tape: usize,
    between: Between,
    heads: &mut Vec<Head>,
) -> Result<(), AllocError>
    requires tape { tape < length tapes.now }
    requires each { All (IsHead tapes.now) heads.old.items }
    ensures each { OnOk result (All (IsHead tapes.now) heads.new.items) }
    ensures left { OnOk result (left_of tapes.now heads.new.items
        ≡ left_of tapes.now heads.old.items ++ between_of (option_copied between.entry.low)
        (option_copied between.entry.high) (slice_index_or tapes.now tape [])) }
{
    for run in 0..tapes.get(tape).runs() {
        add_run(tapes, tape, run, between, heads)?;
    }
    Ok(())
}

// Adds the head of a run, where it has a record between the cuts.
fn add_run(
    tapes: &Tapes,
    tape: usize,
    run: usize,
    between: Between,
    heads: &mut Vec<Head>,
) -> Result<(), AllocError>
    requires tape { tape < length tapes.now }
    requires run { run < length (slice_index_or tapes.now tape []) }
    requires each { All (IsHead tapes.now) heads.old.items }
    ensures each { OnOk result (All (IsHead tapes.now) heads.new.items) }
    ensures left { OnOk result (left_of tapes.now heads.new.items
        ≡ left_of tapes.now heads.old.items ++ records_between (option_copied between.entry.low)
        (option_copied between.entry.high) (run_at tapes.now tape run)) }
{
    let (at, end) = places_in(tapes.get(tape).run(run), between);
    if at < end {
        heads.push(Head::new(tapes, tape, run, at, end))?;
    }
    Ok(())
}
