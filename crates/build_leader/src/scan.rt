//! The scan of a heap by a leader and its workers.

ghost use Rattle.std.specs.Prelude.{IfErr, IfOk};
ghost use Rattle.build_leader.specs.Calls.{IsOpenedFor, IsPlan, IsScanFault, IsScanned};

mod block;
mod refill;
mod row_reader;
mod row_slot;
mod scanned;
mod sink;
mod team;
mod width;
mod worker;

use crate::fault::LeadFault;
use crate::gate::Gate;
use crate::plan::Plan;
use block_claim::{Scan, ScanSeat};
pub use scanned::Scanned;
use std::alloc::Global;
use std::thread::Threads;
use team::scan_team;
pub(crate) use width::{WidthCause, refusal};

/// Scans a heap with as many threads as there are seats: each worker claims blocks until none is
/// left, and puts the rows of an index in them, or their entries, onto a tape of its own in sorted
/// runs (`_bt_parallel_scan_and_sort` of `nbtsort.c`, `_gin_parallel_scan_and_build` of
/// `gininsert.c`), or into summaries of its own (`_brin_parallel_scan_and_build` of `brin.c`). A
/// heap with a fault is refused with its first one, whoever found which.
pub fn scan_heap<Rt: Threads + Sync, G: Gate + Sync>(
    rt: &Rt,
    alloc: Global,
    heap: &[u8],
    plan: &Plan,
    scan: &Scan,
    seats: Vec<ScanSeat>,
    gate: &G,
) -> Result<Scanned, LeadFault>
    requires plan { IsPlan plan.now }
    requires opened { IsOpenedFor plan.now heap.now scan.now seats.items }
    ensures scanned { IfOk result (IsScanned plan.now heap.now scan.now) }
    ensures refused { IfErr result (IsScanFault plan.now heap.now) }
{
    let team = scan_team(rt, alloc, heap, plan, scan, seats, gate)?;
    team.hand_over()
}
