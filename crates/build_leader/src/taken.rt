//! What workers have of a heap's rows becomes the file of an index, by its method.

ghost use Rattle.std.specs.Prelude.{◌≡◌, ◌<◌, All, IfErr, IfOk};
ghost use Rattle.pg_bytes.specs.Blocks.{block_count};
ghost use Rattle.build_leader.specs.Blocks.{IsHeapFile};
ghost use Rattle.build_leader.specs.Calls.{IsLeadFault, IsPlan};
ghost use Rattle.build_leader.specs.Packing.{HaveHeapRows, IsPackedOf};

use crate::brin::pack_summaries;
use crate::btree::pack_rows;
use crate::fault::LeadFault;
use crate::gin::pack_postings;
use crate::plan::Plan;
use brin_summary::RangeParts;
use opclass::Method;
use pg_bytes::{IndexImage, PAGE};
use shared_tape::Tapes;
use std::alloc::Global;
use std::thread::Threads;

/// The file of an index, and how many pairs it has: of a key or an entry and a row pointer, or of a
/// range and its summary.
#[derive(Drop)]
pub(crate) struct Packed {
    pub image: IndexImage,
    pub pairs: u64,
}

/// Packs what the workers have of a heap's rows, of which there are so many.
pub(crate) fn pack_taken<Rt: Threads + Sync>(
    rt: &Rt,
    alloc: Global,
    heap: &[u8],
    plan: &Plan,
    tapes: Tapes,
    ranges: RangeParts,
    rows: u64,
) -> Result<Packed, LeadFault>
    requires plan { IsPlan plan.now }
    requires rows { HaveHeapRows plan.now heap.now tapes ranges rows }
    ensures packed { IfOk result (IsPackedOf plan.now heap.now rows) }
    ensures refused { IfErr result (IsLeadFault plan.now heap.now) }
{
    let blocks = count_blocks(heap);
    match plan.spec.method {
        Method::BTree => pack_rows(rt, alloc, plan, tapes, rows),
        Method::Brin => pack_summaries(alloc, plan, blocks, ranges),
        Method::Gin => pack_postings(rt, alloc, plan, tapes),
    }
}

// How many blocks a heap has.
fn count_blocks(heap: &[u8]) -> u32
    requires { IsHeapFile heap.now }
    ensures blocks { result ≡ block_count heap.now }
    ensures bytes { All (λ byte. byte < 256) heap.now }
{
    (heap.len() / PAGE) as u32
}
