//! A B-tree from parts of its rows: threads write the leaf tuples, and the leader lays them on
//! pages.

ghost use Rattle.std.specs.Prelude.{[], ◌≤◌, All, IfErr, IfOk, List};
ghost use Rattle.btree_pack.specs.Groups.{Row};
ghost use Rattle.btree_pack.specs.Pass.Put.{AreColumnsOf};
ghost use Rattle.shared_tape.specs.Stored.{IsStorable};
ghost use Rattle.run_merge.specs.Sorted.{AllHaveOrder, all_records};
ghost use Rattle.build_leader.specs.IndexRow.{index_kinds};
ghost use Rattle.build_leader.specs.Pass.{AreRowsOf, IsFileOfRuns, HoldLeafRows, IsPackFault, IsPackedFile, IsWrittenRun};

use crate::btree::packing::{pack, write_leaves};
use crate::columns::kinds_of;
use crate::fault::LeadFault;
use crate::key_parts::{PartWork, make_parts};
use crate::plan::Plan;
use btree_pack::{LeafRun, RunPacker};
use opclass::SortSpec;
use pg_bytes::IndexImage;
use run_merge::{Cuts, key_cuts, merge_part};
use shared_tape::Tapes;
use std::alloc::{AllocError, Global};
use std::thread::Threads;

/// The leaf tuples that a plan's index wants of each part.
#[derive(Drop)]
struct LeafWork<'a> {
    plan: &'a Plan,
    ghost columns: { AreColumnsOf plan.now.spec (index_kinds plan.now.table plan.now.spec) },
}

impl<'a> PartWork for LeafWork<'a> {
    type Made = LeafRun;

    ghost makes = { λ work. IsWrittenRun work.plan.now.spec
        (index_kinds work.plan.now.table work.plan.now.spec) };

    ghost refuses = { λ work. IsPackFault work.plan.now.spec };

    ghost takes = { λ work order. AreRowsOf work.plan.now.spec
        (index_kinds work.plan.now.table work.plan.now.spec) };

    fn make(
        &self,
        alloc: Global,
        tapes: &Tapes,
        cuts: &Cuts,
        part: u32,
        order: &SortSpec,
    ) -> Result<LeafRun, LeadFault> {
        let kinds = kinds_of(alloc, &self.plan.table, &self.plan.spec)?;
        let merge = merge_part(alloc, tapes, cuts, part, order)?;
        write_leaves(alloc, &self.plan.spec, kinds, merge)
    }
}

/// Packs the rows of a B-tree, with as many threads as there are workers and the leader.
pub(crate) fn pack_tapes<Rt: Threads + Sync>(
    rt: &Rt,
    alloc: Global,
    plan: &Plan,
    tapes: &Tapes,
    order: &SortSpec,
) -> Result<IndexImage, LeadFault>
    requires workers { plan.now.workers ≤ 31 }
    requires columns { AreColumnsOf plan.now.spec (index_kinds plan.now.table plan.now.spec) }
    requires order { AllHaveOrder order.now tapes.now }
    requires storable { All (IsStorable order.now) (all_records tapes.now) }
    requires rows { AreRowsOf plan.now.spec (index_kinds plan.now.table plan.now.spec)
        (all_records tapes.now) }
    ensures packed { IfOk result (IsPackedFile plan.now.spec
        (index_kinds plan.now.table plan.now.spec) order.now (all_records tapes.now)) }
    ensures refused { IfErr result (IsPackFault plan.now.spec order.now (all_records tapes.now)) }
{
    if plan.workers == 0 {
        pack_whole(alloc, plan, tapes, order)
    } else {
        pack_parts(rt, alloc, plan, tapes, plan.workers + 1, order)
    }
}

// Packs the rows on one thread, as the merge gives them.
fn pack_whole(
    alloc: Global,
    plan: &Plan,
    tapes: &Tapes,
    order: &SortSpec,
) -> Result<IndexImage, LeadFault>
    requires columns { AreColumnsOf plan.now.spec (index_kinds plan.now.table plan.now.spec) }
    requires order { AllHaveOrder order.now tapes.now }
    requires rows { AreRowsOf plan.now.spec (index_kinds plan.now.table plan.now.spec)
        (all_records tapes.now) }
    ensures packed { IfOk result (IsPackedFile plan.now.spec
        (index_kinds plan.now.table plan.now.spec) order.now (all_records tapes.now)) }
    ensures refused { IfErr result (IsPackFault plan.now.spec order.now (all_records tapes.now)) }
{
    let kinds = kinds_of(alloc, &plan.table, &plan.spec)?;
    let merge = merge_part(alloc, tapes, &Cuts::none(alloc), 0, order)?;
    pack(alloc, &plan.spec, kinds, merge)
}

// Packs the rows with so many threads, each of which writes the leaf tuples of a part.
fn pack_parts<Rt: Threads + Sync>(
    rt: &Rt,
    alloc: Global,
    plan: &Plan,
    tapes: &Tapes,
    threads: u32,
    order: &SortSpec,
) -> Result<IndexImage, LeadFault>
    requires threads { (1 ≤ threads) × (threads ≤ 32) }
    requires columns { AreColumnsOf plan.now.spec (index_kinds plan.now.table plan.now.spec) }
    requires order { AllHaveOrder order.now tapes.now }
    requires storable { All (IsStorable order.now) (all_records tapes.now) }
    requires rows { AreRowsOf plan.now.spec (index_kinds plan.now.table plan.now.spec)
        (all_records tapes.now) }
    ensures packed { IfOk result (IsPackedFile plan.now.spec
        (index_kinds plan.now.table plan.now.spec) order.now (all_records tapes.now)) }
    ensures refused { IfErr result (IsPackFault plan.now.spec order.now (all_records tapes.now)) }
{
    let cuts = key_cuts(alloc, tapes, threads, order)?;
    let work = LeafWork { plan };
    let runs = make_parts(rt, alloc, &work, tapes, &cuts, cuts.len() + 1, order)?;
    Ok(lay(alloc, plan, runs)?)
}

// Lays the runs of leaf tuples on pages, one run behind the other.
fn lay(alloc: Global, plan: &Plan, runs: Vec<LeafRun>) -> Result<IndexImage, AllocError>
    requires columns { AreColumnsOf plan.now.spec (index_kinds plan.now.table plan.now.spec) }
    requires runs { (rows : List Row) × HoldLeafRows plan.now.spec
        (index_kinds plan.now.table plan.now.spec) [] runs.items rows }
    ensures { IfOk result (IsFileOfRuns plan.now.spec
        (index_kinds plan.now.table plan.now.spec) runs.items) }
{
    let kinds = kinds_of(alloc, &plan.table, &plan.spec)?;
    let mut packer = RunPacker::new(alloc, &plan.spec, kinds)?;
    for run in runs {
        packer.add(run)?;
    }
    packer.finish()
}
