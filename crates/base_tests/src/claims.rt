ghost use Rattle.std.specs.Prelude.{◌≡◌, ◌+◌, ◌^◌, ◌<◌, ◌≤◌, true, All, sum_by};
ghost use Rattle.block_claim.specs.Calls.{IsSeatOf, is_done};
ghost use Rattle.block_claim.specs.Views.{whole_share};

use block_claim::{Claim, Claims, Scan, ScanSeat};
use std::alloc::{AllocError, Global};
use std::process::Abort;
use std::test::Fail;
use std::thread;
use std::thread::Threads;

fn claim(worker: u32, first: u64, size: u32) -> Claim {
    Claim {
        worker,
        first,
        size,
    }
}

// One claim of a seat that must not be done.
fn claim_once(rt: &impl Abort, scan: &Scan, seat: &mut ScanSeat) -> Option<Claim>
    requires { IsSeatOf scan.now seat.old }
    ensures same { IsSeatOf scan.now seat.new }
    ensures share { seat.new.view.share ≡ seat.old.view.share }
{
    assert!(rt; !seat.done());
    scan.claim(seat)
}

// One claim of a block each, from block 0 on.
fn claim_blocks(rt: &impl Abort, scan: &Scan, seat: &mut ScanSeat, worker: u32, blocks: u64)
    requires { IsSeatOf scan.now seat.old }
    ensures same { IsSeatOf scan.now seat.new }
    ensures share { seat.new.view.share ≡ seat.old.view.share }
{
    for first in 0..blocks {
        assert!(rt; claim_once(rt, scan, seat) == Some(claim(worker, first, 1)));
    }
}

// Claims until the seat is done.
fn claim_to_end(scan: &Scan, seat: &mut ScanSeat)
    requires { IsSeatOf scan.now seat.old }
    ensures same { IsSeatOf scan.now seat.new }
    ensures share { seat.new.view.share ≡ seat.old.view.share }
    ensures done { is_done seat.new ≡ true }
{
    while !seat.done() {
        scan.claim(seat);
    }
}

// Two seats joined.
fn join_one(scan: &Scan, mut into: ScanSeat, from: ScanSeat) -> ScanSeat
    requires into { IsSeatOf scan.now into × (is_done into ≡ true) }
    requires from { IsSeatOf scan.now from × (is_done from ≡ true) }
    ensures seat { IsSeatOf scan.now result }
    ensures done { is_done result ≡ true }
    ensures share { result.view.share ≡ into.view.share + from.view.share }
{
    scan.join(&mut into, from);
    into
}

// The seats joined in their order.
fn join_all(scan: &Scan, mut into: ScanSeat, seats: Vec<ScanSeat>) -> ScanSeat
    requires into { IsSeatOf scan.now into × (is_done into ≡ true) }
    requires seats { All (λ seat. IsSeatOf scan.now seat × (is_done seat ≡ true)) seats.items }
    ensures seat { IsSeatOf scan.now result }
    ensures done { is_done result ≡ true }
    ensures share { result.view.share
        ≡ into.view.share + sum_by (λ seat. seat.view.share) seats.items }
{
    for seat in seats {
        scan.join(&mut into, seat);
    }
    into
}

fn report_block(scan: &Scan, seat: &mut ScanSeat, block: u32)
    requires { IsSeatOf scan.now seat.old }
    ensures same { IsSeatOf scan.now seat.new }
{
    scan.report(seat, block);
}

// The last seat of the list.
fn last_seat(rt: &impl Abort, scan: &Scan, seats: &mut Vec<ScanSeat>) -> ScanSeat
    requires { All (λ seat. IsSeatOf scan.now seat) seats.old.items }
    ensures seat { IsSeatOf scan.now result }
    ensures others { All (λ seat. IsSeatOf scan.now seat) seats.new.items }
    ensures share { sum_by (λ seat. seat.view.share) seats.old.items
        ≡ sum_by (λ seat. seat.view.share) seats.new.items + result.view.share }
{
    seats.pop().expect(rt, "there is a seat")
}

// The claims of all seats, which are done.
fn finish(rt: &impl Abort, scan: Scan, mut seats: Vec<ScanSeat>) -> Claims
    requires seats { All (λ seat. IsSeatOf scan seat × (is_done seat ≡ true)) seats.items }
    requires share { sum_by (λ seat. seat.view.share) seats.items ≡ whole_share }
{
    let into = seats.pop().expect(rt, "there is a seat");
    let into = join_all(&scan, into, seats);
    scan.close(into)
}

// Each seat claims until it is done, in a thread of its own where there are threads.
fn claim_in_threads<R: Threads + Sync>(rt: &R, scan: &Scan, seats: &mut [ScanSeat])
    requires { All (λ seat. IsSeatOf scan.now seat) seats.old }
    ensures done { All (λ seat. IsSeatOf scan.now seat × (is_done seat ≡ true)) seats.new }
    ensures share { sum_by (λ seat. seat.view.share) seats.new
        ≡ sum_by (λ seat. seat.view.share) seats.old }
{
    thread::for_each_mut(rt, seats, 32, &|_, seat| claim_to_end(scan, seat));
}

// A whole scan by threads: the claims of all seats.
fn scanned<R: Threads + Abort + Sync>(
    rt: &R,
    alloc: Global,
    blocks: u32,
    seats: u32,
) -> Result<Claims, AllocError>
    requires { (blocks ≤ 2 ^ 20) × (1 ≤ seats) × (seats ≤ 32) }
{
    let (scan, mut seats) = Scan::open(alloc, blocks, seats)?;
    claim_in_threads(rt, &scan, seats.as_mut_slice());
    Ok(finish(rt, scan, seats))
}

// Whether claims are those of a whole scan, by a table of the numbers and a walk of each ramp,
// which begins with the chunk given.
fn is_legal(
    alloc: Global,
    blocks: u32,
    seats: u32,
    chunk: u32,
    claims: &[Claim],
) -> Result<bool, AllocError> {
    let mut end: u64 = 0;
    for claim in claims {
        end = end.saturating_add(u64::from(claim.size));
    }
    if end > 1 << 24 {
        return Ok(false);
    }
    let mut taken = vec![in alloc; false; end as usize]?;
    for claim in claims {
        for number in claim.first..claim.first.saturating_add(u64::from(claim.size)) {
            match taken.get_mut(number as usize) {
                Some(free) if !*free => *free = true,
                _ => return Ok(false),
            }
        }
    }
    for worker in 0..seats {
        if !follows_ramp(u64::from(blocks), worker, u64::from(chunk), claims) {
            return Ok(false);
        }
    }
    Ok(claims.iter().all(|claim| claim.worker < seats))
}

// Whether one worker's claims go down the ramp to its end.
fn follows_ramp(blocks: u64, worker: u32, mut chunk: u64, claims: &[Claim]) -> bool {
    let mut last: u64 = 0;
    let mut done = false;
    for claim in claims {
        if claim.worker == worker {
            if chunk > 1 && last.saturating_add(chunk.saturating_mul(64)) > blocks {
                chunk /= 2;
            }
            let end = claim.first.saturating_add(chunk);
            if done || u64::from(claim.size) != chunk || claim.first < last {
                return false;
            }
            done = end > blocks;
            last = end.saturating_sub(1);
        }
    }
    done
}

#[test]
fn seats_claim_in_any_order_on_one_thread(rt: HostRuntime) -> Result<(), Fail> {
    let (scan, mut seats) = Scan::open(rt.alloc(), 10, 4)?;
    let mut three = last_seat(&rt, &scan, &mut seats);
    let mut two = last_seat(&rt, &scan, &mut seats);
    let mut one = last_seat(&rt, &scan, &mut seats);
    let mut zero = last_seat(&rt, &scan, &mut seats);
    claim_blocks(&rt, &scan, &mut two, 2, 10);
    assert!(rt; claim_once(&rt, &scan, &mut two) == None);
    assert!(rt; two.done() && two.claims().len() == 11);
    assert!(rt; claim_once(&rt, &scan, &mut zero) == None);
    assert!(rt; claim_once(&rt, &scan, &mut one) == None);
    assert!(rt; claim_once(&rt, &scan, &mut three) == None);
    assert!(rt; zero.claims() == [claim(0, 11, 1)].as_slice());
    assert!(rt; one.claims() == [claim(1, 12, 1)].as_slice());
    assert!(rt; three.claims() == [claim(3, 13, 1)].as_slice());
    assert!(rt; zero.done() && one.done() && two.done() && three.done() && seats.is_empty());
    let joined = join_one(
        &scan,
        join_one(&scan, join_one(&scan, zero, one), two),
        three,
    );
    let claims = scan.close(joined);
    assert!(rt; claims.len() == 14);
    assert!(rt; is_legal(rt.alloc(), 10, 4, 1, claims.as_slice())?);
    Ok(())
}

#[test]
fn another_seat_sees_a_report(rt: HostRuntime) -> Result<(), Fail> {
    let (scan, mut seats) = Scan::open(rt.alloc(), 10, 4)?;
    let mut one = last_seat(&rt, &scan, &mut seats);
    let mut zero = last_seat(&rt, &scan, &mut seats);
    assert!(rt; scan.floor(&mut one) == u64::MAX);
    report_block(&scan, &mut zero, 5);
    assert!(rt; one.seen() == u64::MAX);
    assert!(rt; scan.floor(&mut one) == 5);
    report_block(&scan, &mut one, 7);
    assert!(rt; (one.seen(), scan.floor(&mut zero)) == (5, 5));
    Ok(())
}

#[test]
fn threads_claim_every_block_once(rt: HostRuntime) -> Result<(), Fail> {
    let claims = scanned(&rt, rt.alloc(), 131_072, 32)?;
    assert!(rt; is_legal(rt.alloc(), 131_072, 32, 64, claims.as_slice())?);
    Ok(())
}

#[test]
fn scans_at_the_limits_are_legal(rt: HostRuntime) -> Result<(), Fail> {
    let empty = scanned(&rt, rt.alloc(), 0, 1)?;
    assert!(rt; empty.as_slice() == [claim(0, 0, 1)].as_slice());
    let small = scanned(&rt, rt.alloc(), 1, 32)?;
    assert!(rt; small.len() == 33);
    assert!(rt; is_legal(rt.alloc(), 1, 32, 1, small.as_slice())?);
    let large = scanned(&rt, rt.alloc(), 1 << 20, 1)?;
    assert!(rt; is_legal(rt.alloc(), 1 << 20, 1, 512, large.as_slice())?);
    Ok(())
}

#[test]
fn one_seat_goes_down_the_ramp(rt: HostRuntime) -> Result<(), Fail> {
    let claims = scanned(&rt, rt.alloc(), 4096, 1)?;
    assert!(rt; claims.len() == 2112);
    for (i, made) in claims.as_slice().iter().enumerate() {
        let place = i as u64;
        let wanted = if i < 1985 {
            claim(0, place.saturating_mul(2), 2)
        } else {
            claim(0, place.saturating_add(1985), 1)
        };
        assert!(rt; *made == wanted);
    }
    Ok(())
}

#[test]
fn the_plain_check_refuses_other_lists(rt: HostRuntime) -> Result<(), Fail> {
    let whole = [claim(0, 0, 1), claim(0, 1, 1), claim(0, 2, 1)];
    let gap = [claim(0, 0, 1), claim(0, 2, 1)];
    let overlap = [
        claim(0, 0, 1),
        claim(0, 1, 1),
        claim(0, 1, 1),
        claim(0, 2, 1),
    ];
    let too_large = [claim(0, 0, 2), claim(0, 2, 1)];
    assert!(rt; is_legal(rt.alloc(), 2, 1, 1, &whole)?);
    assert!(rt; !is_legal(rt.alloc(), 2, 1, 1, &gap)?);
    assert!(rt; !is_legal(rt.alloc(), 2, 1, 1, &overlap)?);
    assert!(rt; !is_legal(rt.alloc(), 2, 1, 1, &too_large)?);
    Ok(())
}
