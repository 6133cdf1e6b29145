ghost use Rattle.std.specs.Prelude.{◌≡◌, ◌+◌, [], ◌∷◌, IfOk};
ghost use Rattle.block_claim.specs.Views.{IsFreshView};
ghost use Rattle.block_claim.specs.Calls.{is_done, ramp_of_seat};

use crate::claim::Claim;
use crate::ramp::chunk_at_start;
use crate::view::View;
use atomic_table::Seat;
use std::alloc::{AllocError, Global};
use std::marker::Model;

/// How many claims a seat has room for beyond one for each block: one for each seat that a scan may
/// have, since a worker makes one claim at most that has no block.
const MOST_SEATS: usize = 32;

/// A worker's place in a scan: its number, where it stands on the ramp, and its claims.
#[derive(Drop)]
pub struct ScanSeat {
    pub(crate) token: Seat<(), View>,
    pub(crate) worker: u32,
    pub(crate) chunk: u32,
    pub(crate) last: u64,
    pub(crate) done: bool,
    pub(crate) claims: Vec<Claim>,
    pub(crate) seen: u64,
}

impl Model for ScanSeat {
    ghost use Rattle.block_claim.specs.Calls.{SeatState};

    ghost Value = { SeatState };

    ghost use Rattle.block_claim.specs.Seats.{seat_state, IsSoundSeat};

    ghost view = { seat_state };

    ghost invariant = { IsSoundSeat };
}

impl ScanSeat {
    /// A seat with nothing claimed, and with room for all claims that a scan can come to.
    pub(crate) fn new(
        alloc: Global,
        token: Seat<(), View>,
        worker: u32,
        blocks: u32,
    ) -> Result<ScanSeat, AllocError>
        requires slots { token.me.1 ≡ [] }
        requires fresh { IsFreshView worker blocks token.me.0 }
        ensures { IfOk result (λ seat.
            seat ≡ record { table = token.table_id; worker = worker; view = token.me.0 }) }
    {
        Ok(ScanSeat {
            token,
            worker,
            chunk: chunk_at_start(blocks),
            last: 0,
            done: false,
            claims: Vec::with_capacity(alloc, blocks as usize + MOST_SEATS)?,
            seen: u64::MAX,
        })
    }

    /// The seat's number.
    pub fn worker(&self) -> u32
        ensures { result ≡ self.now.worker }
    {
        self.worker
    }

    /// How many numbers its last claim took, or its first one will take at most.
    pub fn chunk(&self) -> u32
        ensures { result ≡ (ramp_of_seat self.now).chunk }
    {
        self.chunk
    }

    /// The last number that it had, 0 at first.
    pub fn last(&self) -> u64
        ensures { result ≡ (ramp_of_seat self.now).last }
    {
        self.last
    }

    /// Whether its last claim reached past the blocks, so that it has no more to claim.
    pub fn done(&self) -> bool
        ensures { result ≡ is_done self.now }
    {
        self.done
    }

    /// Its claims in the order in which it made them, and behind them those of the seats that were
    /// joined into it.
    pub fn claims(&self) -> &[Claim]
        ensures { result.now ≡ self.now.view.claims }
    {
        self.claims.as_slice()
    }

    /// The least reported block that it knows of, or the greatest number where it knows of none.
    pub fn seen(&self) -> u64
        ensures { result ≡ self.now.view.seen }
    {
        self.seen
    }
}
