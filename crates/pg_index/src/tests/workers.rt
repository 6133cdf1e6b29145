// Workers that are watched, and held up, through a gate.

use super::runs::{files_of, words_with};
use crate::{Claim, Fault, Gate, run};
use pg_bytes::PAGE;
use std::alloc::{AllocError, Global};
use std::sync::atomic::{AtomicBool, AtomicU64, Ordering};
use std::test::Fail;
use std::thread::{Threads, yield_now};
use test_pages::{heap_of, int4_page, put};

// The most turns for which a gate holds a worker.
const TURNS: u32 = 1 << 26;

// A gate that holds the worker that passes it with one block, until workers have passed so many
// times.
#[derive(Drop)]
struct Holding {
    block: u64,
    until: u64,
    /// How many times workers passed.
    passes: AtomicU64,
    /// For each block that a claim began with, the number behind its worker's.
    workers: Vec<AtomicU64>,
    /// Whether the turns ran out.
    ran_out: AtomicBool,
}

impl Holding {
    fn new(alloc: Global, block: u64, until: u64, blocks: usize) -> Result<Holding, AllocError> {
        let mut workers = Vec::new(alloc);
        for _ in 0..blocks {
            workers.push(AtomicU64::new(0))?;
        }
        Ok(Holding {
            block,
            until,
            passes: AtomicU64::new(0),
            workers,
            ran_out: AtomicBool::new(false),
        })
    }

    fn hold(&self) {
        for _ in 0..TURNS {
            if self.passes.load(Ordering::SeqCst) >= self.until {
                return;
            }
            yield_now();
        }
        self.ran_out.store(true, Ordering::SeqCst);
    }

    // Whether the claims that have a block are those that passed, by their workers.
    fn has_seen(&self, claims: &[Claim]) -> bool {
        claims.iter().all(|claim| self.has_passed(claim))
    }

    fn has_passed(&self, claim: &Claim) -> bool {
        match self.workers.get(claim.first as usize) {
            Some(worker) => worker.load(Ordering::SeqCst) == u64::from(claim.worker) + 1,
            None => true,
        }
    }
}

impl Gate for Holding {
    fn passed(&self, worker: u32, claim: Claim) {
        if let Some(word) = self.workers.get(claim.first as usize) {
            word.fetch_add(u64::from(worker) + 1, Ordering::SeqCst);
        }
        self.passes.fetch_add(1, Ordering::SeqCst);
        if claim.first == self.block {
            self.hold();
        }
    }
}

// The fault of a build of an int4 index by so many workers, who pass this gate, and whether the gate
// has seen its claims and let all workers go in time.
fn end_behind<R: Threads + Sync>(
    rt: &R,
    alloc: Global,
    heap: &[u8],
    workers: &str,
    gate: &Holding,
) -> Result<(Option<Fault>, bool), AllocError> {
    let words = words_with(alloc, Some(workers))?;
    let mut files = files_of(alloc, heap)?;
    let ended = run(rt, alloc, &words, &mut files, gate);
    let seen = gate.has_seen(ended.claims.as_slice()) && !gate.ran_out.load(Ordering::SeqCst);
    Ok((ended.fault, seen))
}

// A serial scan would hold itself up until the turns run out.
#[test]
fn two_workers_are_at_work_at_a_time(rt: HostRuntime) -> Result<(), Fail> {
    let alloc = rt.alloc();
    let heap = heap_of(alloc, &[], 64 * PAGE)?;
    let gate = Holding::new(alloc, 0, 2, 64)?;
    let (fault, seen) = end_behind(&rt, alloc, &heap, "--workers=3", &gate)?;
    assert!(rt; fault.is_none() && seen);
    Ok(())
}

// And one by fixed shares would leave the held worker's other blocks to it.
#[test]
fn others_claim_all_blocks_while_one_worker_is_held(rt: HostRuntime) -> Result<(), Fail> {
    let alloc = rt.alloc();
    let heap = heap_of(alloc, &[], 64 * PAGE)?;
    let gate = Holding::new(alloc, 0, 64, 64)?;
    let (fault, seen) = end_behind(&rt, alloc, &heap, "--workers=3", &gate)?;
    assert!(rt; fault.is_none() && seen);
    assert!(rt; gate.passes.load(Ordering::SeqCst) == 64);
    Ok(())
}

// A heap of eleven new blocks, but for pages with a special space at blocks 3 and 8.
fn broken_heap(alloc: Global) -> Result<Vec<u8>, AllocError> {
    let mut broken = int4_page(alloc, &[30, 10, 20])?;
    put(&mut broken, 16, &[0xF8, 0x1F]);
    let mut heap = heap_of(alloc, &[], 11 * PAGE)?;
    put(&mut heap, 3 * PAGE, &broken);
    put(&mut heap, 8 * PAGE, &broken);
    Ok(heap)
}

// The worker of block 3 is held until all blocks were claimed, those behind block 8 too, so that
// the other one has found the fault of block 8 before.
#[test]
fn a_fault_that_is_found_late_is_told_where_it_is_first(rt: HostRuntime) -> Result<(), Fail> {
    let alloc = rt.alloc();
    let heap = broken_heap(alloc)?;
    let gate = Holding::new(alloc, 3, 11, 11)?;
    let (fault, seen) = end_behind(&rt, alloc, &heap, "--workers=1", &gate)?;
    assert!(rt; seen && matches!(fault, Some(Fault::Heap { block: 3, .. })));
    Ok(())
}
