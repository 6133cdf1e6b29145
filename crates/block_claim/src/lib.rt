//! Claims of a parallel block scan: seats take chunks of blocks by one atomic addition each, and
//! every block is taken once.
//!
//! Several workers scan one heap (`table_block_parallelscan_nextpage` in `tableam.c`). They share
//! a single number, `next`, the first that nobody has taken. A worker that wants blocks adds its
//! chunk to the number by one atomic step, and has the numbers from what it found up to what it
//! left: its claim. Those below the number of blocks are its blocks. So no lock is needed and no
//! worker waits for another: two additions of one word happen one after the other.
//!
//! The chunks go down a ramp. The first is about one part in 2,048 of the blocks, and near the end
//! each worker halves its own, once a claim, so that all come to the end at about the same time. A
//! worker is done when its claim reaches past the blocks. Each worker therefore makes one claim at
//! the end that has no block, or blocks only at its front; a claim that ends exactly at the last
//! block is followed by one more.
//!
//! What holds between any two steps (`specs/Rule.antt`). Each seat has a view, what it knows,
//! which exists in the proofs alone: the workers that it answers for, its claims, and a share. The
//! shares are parts of one whole, and only steps on the scan's words change a view.
//!
//! - Each worker stands in one view.
//! - The claims of a worker follow the ramp by the numbers that it got, and only its last makes it
//!   done.
//! - `next` is how many numbers all claims have, and each number below it lies in exactly one
//!   claim.
//!
//! A claim keeps this because it begins exactly where all claims so far end. No addition can wrap:
//! a view never has more claims than its share, the shares are 2^40 together and a chunk is at
//! most 2^13, so `next` is at most 2^53. And a seat that isn't done has room in its share, since
//! each of its claims has a block of its own.
//!
//! A seat begins with at least 2^35, and a join adds another seat's share, workers and claims to
//! it. So the seat that has the whole share knows that every other view has no share, hence no
//! workers and no claims: the claims that it has are all there are. They tile the numbers, every
//! worker went to its end, and that is what a legal list of claims is (`specs/Legal.antt`), but
//! for the order in which the workers stand.
//!
//! A second word, `floor`, is the least block that any worker has reported. A worker that found a
//! fault reports its block, and the others may pass over greater blocks once they have seen the
//! floor. It only falls, and what a seat has seen is never below it, so the seat with the whole
//! share has seen no less than the least of all reports.
//!
//! # What it promises
//!
//! `open` gives each number a seat and takes all memory of the
//! scan; `claim`, `join`, `report` and `floor` take none, wait for nothing, and say in their
//! contracts exactly what the seat has afterwards. A seat that is done and has the whole share has
//! legal claims, also where the scan is only borrowed. `close` gives them. The laws say that each
//! block lies in exactly one legal claim, that legal claims in the order of their numbers are what
//! the machine of `specs/Machine.antt` makes, that they are at most as many as blocks and seats,
//! and that the first chunk is the least power of two that is large enough.
//!
//! # What is not
//!
//! Nothing is said of time: not that two threads ran, that they shared the blocks evenly, or that
//! one of them gets on. That claims come from the shared words as they are at that moment, and not
//! from a schedule that was fixed at the opening, no contract of one seat can say; tests show it,
//! with seats that claim in an order of their own and with threads. That `floor` looks at the word
//! is shown by a test alone. A seat that is dropped takes its claims with it, and then no seat
//! comes to have the whole share. The scan begins at block 0, so there is no synchronised scan.
#![tactic(auto)]

mod claim;
mod laws;
mod ramp;
mod rule;
mod scan;
mod seat;
mod steps;
mod view;

pub use claim::{Claim, Claims};
pub use laws::{
    each_block_is_claimed_once, first_chunk_is_a_power_of_two, legal_claims_are_a_run,
    legal_claims_are_few,
};
pub use scan::Scan;
pub use seat::ScanSeat;
