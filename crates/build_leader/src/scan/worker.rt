//! A worker of a scan: it claims blocks until none is left, and takes the rows of its blocks
//! (`_bt_parallel_scan_and_sort` of `nbtsort.c`).

ghost use Rattle.std.specs.Prelude.{◌≡◌, ◌+◌, ◌-◌, ◌^◌, ◌≤◌, ◌<◌, [], ◌∷◌, IfOk, OnOk, true, false};
ghost use Rattle.std.specs.List.{range_with_len};
ghost use Rattle.pg_bytes.specs.Blocks.{block_at, block_count};
ghost use Rattle.block_claim.specs.Calls.{is_done};
ghost use Rattle.build_leader.specs.Scanning.{IsBetweenClaims, IsOneClaimMore, IsSameWorker, IsScanOf, IsWorker, TakesBlocks, begun_with};

use crate::gate::Gate;
use crate::scan::block::{BlockError, scan_block};
use crate::scan::row_reader::RowReader;
use crate::scan::row_slot::RowSlot;
use crate::scan::sink::Sink;
use block_claim::{Scan, ScanSeat};
use pg_bytes::{PAGE, Page};
use std::alloc::{AllocError, Global};

/// The fault of a block of the heap.
#[derive(Clone, Copy)]
pub(crate) struct BlockFault {
    pub block: u32,
    pub item: u16,
    pub cause: u8,
}

/// A worker's part of a scan: its seat, what the rows of its blocks went into and how many they
/// are, the row that it is at, and the fault of the least block that it reported. All of it changes
/// threads by a move.
#[derive(Drop)]
pub(crate) struct Share {
    pub seat: ScanSeat,
    pub sink: Sink,
    pub slot: RowSlot,
    pub rows: u64,
    pub fault: Option<BlockFault>,
}

impl Share {
    /// What a worker begins with.
    pub fn new(seat: ScanSeat, sink: Sink, slot: RowSlot) -> Share
        ensures { result ≡ begun_with seat sink slot }
    {
        Share {
            seat,
            sink,
            slot,
            rows: 0,
            fault: None,
        }
    }
}

/// Claims blocks until none is left, and takes the rows of each. A block with a fault is reported
/// to all workers, and from then on none reads a greater one that has seen the report.
pub(crate) fn scan_share<G: Gate>(
    alloc: Global,
    reader: &RowReader,
    heap: &[u8],
    scan: &Scan,
    mut share: Share,
    gate: &G,
) -> Result<Share, AllocError>
    requires scan { IsScanOf heap.now scan.now }
    requires begun { IsBetweenClaims reader.now heap.now scan.now share }
    ensures done { IfOk result (λ share. is_done share.seat ≡ true) }
    ensures same { IfOk result (IsSameWorker share) }
    ensures scanned { IfOk result (IsBetweenClaims reader.now heap.now scan.now) }
{
    'claims: while !share.seat.done() {
        scan_claim(alloc, reader, heap, scan, &mut share, gate)?;
    }
    Ok(share)
}

// Makes one claim and takes the rows of its blocks.
fn scan_claim<G: Gate>(
    alloc: Global,
    reader: &RowReader,
    heap: &[u8],
    scan: &Scan,
    share: &mut Share,
    gate: &G,
) -> Result<(), AllocError>
    requires scan { IsScanOf heap.now scan.now }
    requires going { is_done share.old.seat ≡ false }
    requires between { IsBetweenClaims reader.now heap.now scan.now share.old }
    ensures same { OnOk result (IsSameWorker share.old share.new) }
    ensures claims { OnOk result (IsOneClaimMore scan.now share.old share.new) }
    ensures between { OnOk result (IsBetweenClaims reader.now heap.now scan.now share.new) }
{
    let Some(claim) = scan.claim(&mut share.seat) else {
        return Ok(());
    };
    gate.passed(share.seat.worker(), claim);
    scan.floor(&mut share.seat);
    let blocks = (heap.len() / PAGE) as u64;
    let end = blocks.min(claim.first + u64::from(claim.size));
    scan_blocks(
        alloc,
        reader,
        heap,
        scan,
        share,
        claim.first as u32,
        end as u32,
    )
}

// Takes the rows of the blocks from one up to another.
fn scan_blocks(
    alloc: Global,
    reader: &RowReader,
    heap: &[u8],
    scan: &Scan,
    share: &mut Share,
    first: u32,
    end: u32,
) -> Result<(), AllocError>
    requires scan { IsScanOf heap.now scan.now }
    requires range { (first ≤ end) × (end ≤ block_count heap.now) }
    requires worker { IsWorker reader.now scan.now share.old }
    requires room { share.old.rows ≤ 2 ^ 52 }
    ensures worker { IsWorker reader.now scan.now share.new }
    ensures same { IsSameWorker share.old share.new }
    ensures claims { share.new.seat.view.claims ≡ share.old.seat.view.claims }
    ensures rows { share.new.rows ≤ share.old.rows + 2 ^ 33 }
    ensures taken { OnOk result
        (TakesBlocks reader.now heap.now (range_with_len first (end - first))
        share.old share.new) }
{
    for block in first..end {
        scan_one(alloc, reader, heap, scan, share, block)?;
    }
    Ok(())
}

// Takes the rows of one block, or reports it where it has a fault. What was reported is above the
// block, so the block's fault is the one to keep.
fn scan_one(
    alloc: Global,
    reader: &RowReader,
    heap: &[u8],
    scan: &Scan,
    share: &mut Share,
    block: u32,
) -> Result<(), AllocError>
    requires scan { IsScanOf heap.now scan.now }
    requires block { block < block_count heap.now }
    requires worker { IsWorker reader.now scan.now share.old }
    requires room { share.old.rows ≤ 2 ^ 53 }
    ensures worker { IsWorker reader.now scan.now share.new }
    ensures same { IsSameWorker share.old share.new }
    ensures claims { share.new.seat.view.claims ≡ share.old.seat.view.claims }
    ensures rows { share.new.rows ≤ share.old.rows + 2 ^ 16 }
    ensures taken { OnOk result
        (TakesBlocks reader.now heap.now (block ∷ []) share.old share.new) }
{
    if u64::from(block) > share.seat.seen() {
        return Ok(());
    }
    let page = page_at(heap, block);
    match scan_block(
        alloc,
        reader,
        &page,
        block,
        &mut share.sink,
        &mut share.slot,
    ) {
        Ok(rows) => share.rows += rows,
        Err(BlockError::Fault { item, cause }) => {
            scan.report(&mut share.seat, block);
            share.fault = Some(BlockFault { block, item, cause });
        }
        Err(BlockError::Memory) => return Err(AllocError),
    }
    Ok(())
}

// The page of a block.
#[tactic(auto, unfolding(pg_bytes::specs::Blocks::block_at))]
fn page_at(heap: &[u8], block: u32) -> Page<'_>
    requires { block < block_count heap.now }
    ensures { result ≡ block_at block heap.now }
{
    let start = PAGE * block as usize;
    match Page::of(&heap[start..start + PAGE]) {
        Some(page) => page,
        None => unreachable!(),
    }
}
