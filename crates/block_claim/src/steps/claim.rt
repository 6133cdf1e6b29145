ghost use Rattle.std.specs.Prelude.{◌≡◌, ◌+◌, ◌≤◌, false, length};
ghost use Rattle.block_claim.specs.Calls.{IsSeatOf, is_done, MakesClaim, ClaimsAreLegal, NoReportIsMissed};
ghost use Rattle.block_claim.specs.Steps.{ClaimsFrom};

use crate::claim::Claim;
use crate::ramp::next_chunk;
use crate::scan::{NEXT, Scan};
use crate::seat::ScanSeat;
use crate::view::View;
use atomic_table::Play;

pub(crate) struct Claiming;

impl Play<(), View> for Claiming {
    ghost then = { λ step me found after. ClaimsFrom step me found after };
}

impl Scan {
    /// Takes the next numbers for the seat's worker by one atomic addition, and answers them where
    /// one of them is a block. The claim is added to the seat's list also where the answer is None,
    /// which comes exactly where the number that this addition found is at or past the blocks.
    pub fn claim(&self, seat: &mut ScanSeat) -> Option<Claim>
        requires scan { IsSeatOf self.now seat.old }
        requires going { is_done seat.old ≡ false }
        ensures event { MakesClaim seat.old result seat.new }
        ensures few { length seat.new.view.claims ≤ self.now.blocks + self.now.seats }
        ensures legal { ClaimsAreLegal seat.new }
        ensures seen { NoReportIsMissed seat.new }
    {
        let blocks = u64::from(self.blocks);
        let chunk = next_chunk(self.blocks, seat.chunk, seat.last);
        let size = u64::from(chunk);
        let first = self
            .table
            .shared
            .fetch_add::<Claiming>(&mut seat.token, NEXT, size);
        let claim = Claim {
            worker: seat.worker,
            first,
            size: chunk,
        };
        seat.claims.push_reserved(claim);
        seat.chunk = chunk;
        seat.done = first + size > blocks;
        if !seat.done {
            seat.last = first + size - 1;
        }
        (first < blocks).then_some(claim)
    }
}
