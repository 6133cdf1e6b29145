ghost use Rattle.std.specs.Prelude.{◌≡◌, IfErr, IfOk};
ghost use Rattle.opclass.specs.Indexes.{IsIndexOver, IsTable};
ghost use Rattle.pg_index.specs.Calls.BuiltIndex.{IsHeapFault, IsIndexOf, IsManner};
ghost use Rattle.pg_index.specs.Report.{claims_told};

use crate::fault::HeapFault;
use crate::heap_file::check_whole;
use crate::report::report;
use crate::statements::Asked;
use block_claim::{Claim, Claims, Scan};
use build_leader::{Gate, Plan, build};
use pg_bytes::{IndexImage, PAGE};
use std::alloc::Global;
use std::thread::Threads;

/// How an index is built, whatever it is: by so many workers beside the leader, in sorted runs of
/// at most so many rows, and whether the report tells the claims.
#[derive(Clone, Copy, Debug, PartialEq, Eq)]
pub struct Manner {
    pub workers: u32,
    pub run_rows: u32,
    pub tells_claims: bool,
}

/// An index that stands in memory, and the report that tells of it.
#[derive(Debug, Drop)]
pub struct BuiltIndex {
    pub image: IndexImage,
    pub report: String,
    /// How many rows it has.
    pub rows: u64,
    /// How many blocks.
    pub blocks: u32,
    /// Who claimed which blocks of the heap.
    pub claims: Claims,
}

/// The index that is asked for over a heap, or why there is none. It takes all the memory that a
/// build needs.
pub fn build_index<Rt: Threads + Sync, G: Gate + Sync>(
    rt: &Rt,
    alloc: Global,
    heap: &[u8],
    asked: Asked,
    manner: Manner,
    gate: &G,
) -> Result<BuiltIndex, HeapFault>
    requires table { IsTable asked.table }
    requires index { IsIndexOver asked.table asked.spec }
    requires manner { IsManner manner }
    ensures built { IfOk result (IsIndexOf asked manner heap.now) }
    ensures refused { IfErr result (IsHeapFault asked heap.now) }
{
    check_whole(heap)?;
    let blocks = (heap.len() / PAGE) as u32;
    let plan = Plan {
        table: asked.table,
        spec: asked.spec,
        workers: manner.workers,
        run_rows: manner.run_rows,
    };
    let (scan, seats) = Scan::open(alloc, blocks, plan.workers + 1)?;
    let built = build(rt, alloc, heap, &plan, &scan, seats, gate)?;
    let claims = scan.close(built.seat);
    let blocks = built.image.blocks();
    let method = plan.spec.method;
    let report = report(
        alloc,
        told_claims(&claims, manner),
        method,
        built.rows,
        blocks,
    )?;
    Ok(BuiltIndex {
        image: built.image,
        report,
        rows: built.rows,
        blocks,
        claims,
    })
}

// The claims that the report tells.
fn told_claims(claims: &Claims, manner: Manner) -> &[Claim]
    ensures { result.now ≡ claims_told manner.tells_claims claims.now }
{
    if manner.tells_claims {
        claims.as_slice()
    } else {
        &[]
    }
}
