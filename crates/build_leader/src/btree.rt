//! A B-tree's rows: how they are packed, and which of them its tuples have no room for.

ghost use Rattle.std.specs.Prelude.{◌≡◌, ◌≤◌, All, IfErr, IfOk};
ghost use Rattle.shared_tape.specs.Stored.{IsStorable};
ghost use Rattle.run_merge.specs.Sorted.{AllHaveOrder, all_records};
ghost use Rattle.btree_pack.specs.Pass.Put.{AreColumnsOf};
ghost use Rattle.build_leader.specs.IndexRow.{index_kinds};
ghost use Rattle.build_leader.specs.Outcome.{order_of_index};
ghost use Rattle.build_leader.specs.Pass.{AreRowsOf, IsPackFault, IsPackedFile};

mod leaf_parts;
mod packing;
mod tuple_width;

use crate::columns::order_of;
use crate::fault::LeadFault;
use crate::plan::Plan;
use crate::taken::Packed;
use leaf_parts::pack_tapes;
use shared_tape::Tapes;
use std::alloc::Global;
use std::thread::Threads;
pub(crate) use tuple_width::check_tuple;

/// Packs the rows of a B-tree, in its order (`_bt_leafbuild` of `nbtsort.c`).
pub(crate) fn pack_rows<Rt: Threads + Sync>(
    rt: &Rt,
    alloc: Global,
    plan: &Plan,
    tapes: Tapes,
    rows: u64,
) -> Result<Packed, LeadFault>
    requires workers { plan.now.workers ≤ 31 }
    requires columns { AreColumnsOf plan.now.spec (index_kinds plan.now.table plan.now.spec) }
    requires order { AllHaveOrder (order_of_index plan.now.spec) tapes }
    requires storable { All (IsStorable (order_of_index plan.now.spec)) (all_records tapes) }
    requires rows { AreRowsOf plan.now.spec (index_kinds plan.now.table plan.now.spec)
        (all_records tapes) }
    ensures image { IfOk result (λ packed. IsPackedFile plan.now.spec
        (index_kinds plan.now.table plan.now.spec) (order_of_index plan.now.spec)
        (all_records tapes) packed.image) }
    ensures pairs { IfOk result (λ packed. packed.pairs ≡ rows) }
    ensures refused { IfErr result (IsPackFault plan.now.spec (order_of_index plan.now.spec)
        (all_records tapes)) }
{
    let order = order_of(alloc, &plan.spec)?;
    Ok(Packed {
        image: pack_tapes(rt, alloc, plan, &tapes, &order)?,
        pairs: rows,
    })
}
