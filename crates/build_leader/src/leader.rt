ghost use Rattle.std.specs.Prelude.{IfErr, IfOk};
ghost use Rattle.build_leader.specs.Calls.{IsBuilt, IsLeadFault, IsOpenedFor, IsPlan};

use crate::built::Built;
use crate::fault::LeadFault;
use crate::gate::Gate;
use crate::plan::Plan;
use crate::scan::{Scanned, scan_heap};
use crate::taken::pack_taken;
use block_claim::{Scan, ScanSeat};
use std::alloc::Global;
use std::thread::Threads;

/// Builds an index over a heap (`btbuild` of `nbtsort.c`, `brinbuild` of `brin.c`, `ginbuild` of
/// `gininsert.c`): scans it and packs what the workers have of its rows. An error is the heap's
/// first fault; or, over a heap without one, the first two neighbours in the order of a unique
/// index that break its rule, or the least range of a BRIN index whose tuple no page takes; or want
/// of memory.
pub fn build<Rt: Threads + Sync, G: Gate + Sync>(
    rt: &Rt,
    alloc: Global,
    heap: &[u8],
    plan: &Plan,
    scan: &Scan,
    seats: Vec<ScanSeat>,
    gate: &G,
) -> Result<Built, LeadFault>
    requires plan { IsPlan plan.now }
    requires opened { IsOpenedFor plan.now heap.now scan.now seats.items }
    ensures built { IfOk result (IsBuilt plan.now heap.now scan.now) }
    ensures refused { IfErr result (IsLeadFault plan.now heap.now) }
{
    let Scanned {
        tapes,
        ranges,
        seat,
        rows,
    } = scan_heap(rt, alloc, heap, plan, scan, seats, gate)?;
    let packed = pack_taken(rt, alloc, heap, plan, tapes, ranges, rows)?;
    Ok(Built {
        image: packed.image,
        rows,
        pairs: packed.pairs,
        seat,
    })
}
