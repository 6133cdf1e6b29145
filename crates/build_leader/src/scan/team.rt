//! The workers of a scan side by side, and what they have together at its end
//! (`_bt_begin_parallel` and `_bt_parallel_heapscan` of `nbtsort.c`).

ghost use Rattle.std.specs.Prelude.{◌≡◌, ◌+◌, ◌^◌, ◌<◌, ◌≤◌, IfErr, IfOk, OnOk, length, true};
ghost use denote.Param.Send.{IsSync};
ghost use Rattle.block_claim.specs.Calls.{ClaimsAreLegal, IsFresh, IsSeatOf, NoReportIsMissed, is_done, ramp_of_seat};
ghost use Rattle.build_leader.specs.Calls.{IsPlan};
ghost use Rattle.build_leader.specs.Scanning.{IsScanOf};
ghost use Rattle.build_leader.specs.Teams.{AreFreshSeats, HandsOver, IsAlone, IsTeam, TellsFault, joined_team, lesser_fault, share_of_seats};

use crate::fault::LeadFault;
use crate::gate::Gate;
use crate::plan::Plan;
use crate::scan::row_reader::RowReader;
use crate::scan::row_slot::RowSlot;
use crate::scan::scanned::Scanned;
use crate::scan::sink::Sink;
use crate::scan::worker::{BlockFault, Share, scan_share};
use block_claim::{Scan, ScanSeat};
use brin_summary::RangeParts;
use pg_bytes::Items;
use shared_tape::Tapes;
use std::alloc::{AllocError, Global};
use std::thread::{Threads, join};

/// Workers whose numbers follow each other, at the end of their claims: the seat into which theirs
/// were joined, the tape of each and its ranges, how many rows they have, and the fault of the
/// least block that one of them reported.
#[derive(Drop)]
pub(crate) struct Team {
    pub seat: ScanSeat,
    pub tapes: Tapes,
    pub ranges: RangeParts,
    pub rows: u64,
    pub fault: Option<BlockFault>,
}

/// Scans with a worker for each seat, each on a thread of its own where one can be made. The first
/// is the caller's thread: the leader takes part.
#[cycle(team)]
pub(crate) fn scan_team<Rt: Threads + Sync, G: Gate + Sync>(
    rt: &Rt,
    alloc: Global,
    heap: &[u8],
    plan: &Plan,
    scan: &Scan,
    mut seats: Vec<ScanSeat>,
    gate: &G,
) -> Result<Team, AllocError>
    requires scan { IsScanOf heap.now scan.now }
    requires plan { IsPlan plan.now }
    requires fresh { AreFreshSeats scan.now seats.items }
    requires some { 0 < length seats.items }
    requires few { length seats.items ≤ 32 }
    ensures team { IfOk result (IsTeam plan.now heap.now scan.now 0 (length seats.items)) }
    ensures share { IfOk result (λ team. team.seat.view.share ≡ share_of_seats seats.items) }
{
    let Some(last) = seats.pop() else {
        unreachable!()
    };
    if seats.is_empty() {
        return scan_alone(alloc, heap, plan, scan, last, gate);
    }
    let (one, team) = join(
        rt,
        move || -> Result<Team, AllocError>
            requires { IsSync G.row × IsScanOf heap.now scan.now × IsPlan plan.now
                × IsFresh scan.now last.worker last }
            ensures team { IfOk result
                (IsTeam plan.entry.now heap.entry.now scan.entry.now last.worker 1) }
            ensures share { IfOk result (λ team. team.seat.view.share ≡ last.view.share) }
        { scan_alone(alloc, heap, plan, scan, last, gate) },
        move || -> Result<Team, AllocError>
            requires { IsSync Rt.row × IsSync G.row × IsScanOf heap.now scan.now
                × IsPlan plan.now × AreFreshSeats scan.now seats.items
                × (0 < length seats.items) × (length seats.items ≤ 32) }
            ensures team { IfOk result (IsTeam plan.entry.now heap.entry.now scan.entry.now 0
                (length seats.items)) }
            ensures share { IfOk result
                (λ team. team.seat.view.share ≡ share_of_seats seats.items) }
        { scan_team(rt, alloc, heap, plan, scan, seats, gate) },
    );
    team?.joined(scan, one?)
}

// One worker's scan: it makes its reader and its sink itself.
fn scan_alone<G: Gate>(
    alloc: Global,
    heap: &[u8],
    plan: &Plan,
    scan: &Scan,
    seat: ScanSeat,
    gate: &G,
) -> Result<Team, AllocError>
    requires scan { IsScanOf heap.now scan.now }
    requires plan { IsPlan plan.now }
    requires fresh { IsFresh scan.now seat.worker seat }
    ensures team { IfOk result (IsTeam plan.now heap.now scan.now seat.worker 1) }
    ensures share { IfOk result (λ team. team.seat.view.share ≡ seat.view.share) }
{
    let reader = RowReader::of(alloc, plan)?;
    let sink = Sink::of(alloc, plan)?;
    let begun = Share::new(seat, sink, RowSlot::new(alloc));
    let share = scan_share(alloc, &reader, heap, scan, begun, gate)?;
    Team::of(alloc, share)
}

impl Team {
    // One worker, of which a tape and ranges are left.
    fn of(alloc: Global, share: Share) -> Result<Team, AllocError>
        ensures { IfOk result (IsAlone share) }
    {
        let Share {
            seat,
            sink,
            rows,
            fault,
            ..
        } = share;
        let mut tapes = Vec::with_capacity(alloc, 1)?;
        let mut ranges = Vec::with_capacity(alloc, 1)?;
        let (tape, summed) = sink.finish(alloc)?;
        tapes.push_reserved(tape);
        ranges.push_reserved(summed);
        Ok(Team {
            seat,
            tapes: Items::from_vec(tapes),
            ranges: Items::from_vec(ranges),
            rows,
            fault,
        })
    }

    // Together with the workers whose numbers follow.
    fn joined(self, scan: &Scan, next: Team) -> Result<Team, AllocError>
        requires seat { IsSeatOf scan.now self.seat × (is_done self.seat ≡ true) }
        requires next { IsSeatOf scan.now next.seat × (is_done next.seat ≡ true) }
        requires rows { self.rows + next.rows < 2 ^ 64 }
        ensures joined { IfOk result (λ team. team ≡ joined_team self next) }
        ensures place { IfOk result (λ team. ramp_of_seat team.seat ≡ ramp_of_seat self.seat) }
        ensures legal { IfOk result (λ team. ClaimsAreLegal team.seat) }
        ensures missed { IfOk result (λ team. NoReportIsMissed team.seat) }
    {
        let mut tapes = self.tapes.into_vec();
        tapes.append(&mut next.tapes.into_vec())?;
        let mut ranges = self.ranges.into_vec();
        ranges.append(&mut next.ranges.into_vec())?;
        let mut seat = self.seat;
        scan.join(&mut seat, next.seat);
        Ok(Team {
            seat,
            tapes: Items::from_vec(tapes),
            ranges: Items::from_vec(ranges),
            rows: self.rows + next.rows,
            fault: lesser(self.fault, next.fault),
        })
    }

    /// What the workers have of their rows, unless one of them found a fault.
    pub fn hand_over(self) -> Result<Scanned, LeadFault>
        ensures scanned { IfOk result (HandsOver self) }
        ensures refused { IfErr result (TellsFault self) }
    {
        let Team {
            seat,
            tapes,
            ranges,
            rows,
            fault,
        } = self;
        match fault {
            None => Ok(Scanned {
                tapes,
                ranges,
                seat,
                rows,
            }),
            Some(BlockFault { block, item, cause }) => Err(LeadFault::Row { block, item, cause }),
        }
    }
}

// The fault of the lesser block.
fn lesser(a: Option<BlockFault>, b: Option<BlockFault>) -> Option<BlockFault>
    ensures { result ≡ lesser_fault a b }
{
    match (a, b) {
        (Some(a), Some(b)) if b.block < a.block => Some(b),
        (Some(a), _) => Some(a),
        (None, b) => b,
    }
}
