//! A BRIN index's summaries: what a worker knows of ranges, and how the workers' become one file.

ghost use Rattle.std.specs.Prelude.{◌≡◌, ◌<◌, ◌≤◌, ◌^◌, ℕ, IfErr, IfOk, length};
ghost use Rattle.brin_summary.specs.Answer.{tuple_size};
ghost use Rattle.build_leader.specs.Blocks.{most_blocks};
ghost use Rattle.build_leader.specs.Holding.{all_ranges};
ghost use Rattle.build_leader.specs.IndexRow.{index_kinds};
ghost use Rattle.build_leader.specs.Packing.{AreSummariesPacked, IsRangeFault};
ghost use Rattle.build_leader.specs.Ranges.{told_of};
ghost use Rattle.build_leader.specs.Tally.{AreOfColumns};

mod ranges;
mod uniting;

use crate::columns::kinds_of;
use crate::fault::LeadFault;
use crate::plan::Plan;
use crate::taken::Packed;
use brin_summary::RangeParts;
pub(crate) use ranges::RangeTally;
use std::alloc::Global;
use uniting::{count_ranges, pack_ranges};

/// Packs the summaries of a BRIN index's ranges (`_brin_parallel_merge` of `brin.c`).
pub(crate) fn pack_summaries(
    alloc: Global,
    plan: &Plan,
    blocks: u32,
    ranges: RangeParts,
) -> Result<Packed, LeadFault>
    requires some_pages { 1 ≤ plan.now.spec.pages_per_range }
    requires few_pages { plan.now.spec.pages_per_range ≤ 131072 }
    requires kinds { length (index_kinds plan.now.table plan.now.spec)
        ≡ length plan.now.spec.keys }
    requires few_kinds { length plan.now.spec.keys ≤ 32 }
    requires blocks { blocks ≤ most_blocks }
    requires columns { AreOfColumns (length plan.now.spec.keys) (all_ranges ranges) }
    requires sizes { (range : ℕ) → tuple_size (index_kinds plan.now.table plan.now.spec)
        (told_of (length plan.now.spec.keys) range (all_ranges ranges)) < 2 ^ 63 }
    ensures packed { IfOk result (AreSummariesPacked plan.now blocks (all_ranges ranges)) }
    ensures refused { IfErr result (IsRangeFault plan.now blocks (all_ranges ranges)) }
{
    let kinds = kinds_of(alloc, &plan.table, &plan.spec)?;
    Ok(Packed {
        image: pack_ranges(alloc, &plan.spec, &kinds, blocks, ranges)?,
        pairs: u64::from(count_ranges(&plan.spec, blocks)),
    })
}
