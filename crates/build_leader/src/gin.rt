//! A GIN index's entries: how they are packed, which of them its tuples have no room for, and what
//! holds of the index's map.

ghost use Rattle.std.specs.Prelude.{◌≡◌, ◌<◌, ◌≤◌, All, IfErr, IfOk, length};
ghost use Rattle.gin_entry.specs.EntryOrder.{entry_order};
ghost use Rattle.shared_tape.specs.Stored.{IsStorable};
ghost use Rattle.run_merge.specs.Sorted.{AllHaveOrder, all_records};
ghost use Rattle.build_leader.specs.Gin.{AreEntries, most_records};
ghost use Rattle.build_leader.specs.IndexRow.{index_kinds};
ghost use Rattle.build_leader.specs.Packing.{AreEntriesPacked};

mod count;
mod entry_laws;
mod posting_parts;
mod wide_entry;

use crate::columns::kinds_of;
use crate::fault::LeadFault;
use crate::plan::Plan;
use crate::taken::Packed;
use count::count_records;
pub use entry_laws::{
    elements_lead_to_their_rows, empty_arrays_lead_to_their_rows, nulls_lead_to_their_rows,
    postings_point_to_rows,
};
use posting_parts::pack_entries;
use shared_tape::Tapes;
use spool::order_of_entries;
use std::alloc::Global;
use std::thread::Threads;
pub(crate) use wide_entry::check_entries;

/// Packs the entries of a GIN index's rows, in their order (`ginbuild` of `gininsert.c`).
pub(crate) fn pack_postings<Rt: Threads + Sync>(
    rt: &Rt,
    alloc: Global,
    plan: &Plan,
    tapes: Tapes,
) -> Result<Packed, LeadFault>
    requires workers { plan.now.workers ≤ 31 }
    requires order { AllHaveOrder entry_order tapes }
    requires storable { All (IsStorable entry_order) (all_records tapes) }
    requires entries { length (all_records tapes) < most_records
        → AreEntries (index_kinds plan.now.table plan.now.spec) entry_order (all_records tapes) }
    ensures image { IfOk result (AreEntriesPacked plan.now (all_records tapes)) }
    ensures refused { IfErr result (λ fault. fault ≡ LeadFault.Memory) }
{
    let Some(pairs) = count_records(&tapes) else {
        return Err(LeadFault::Memory);
    };
    let order = order_of_entries(alloc)?;
    let kinds = kinds_of(alloc, &plan.table, &plan.spec)?;
    Ok(Packed {
        image: pack_entries(rt, alloc, plan.workers, &kinds, tapes, order)?,
        pairs: u64::from(pairs),
    })
}
