ghost use Rattle.block_claim.specs.Calls.{IsSeatOf, MakesReport, ClaimsAreLegal, NoReportIsMissed};
ghost use Rattle.block_claim.specs.Steps.{Reports};

use crate::scan::{FLOOR, Scan};
use crate::seat::ScanSeat;
use crate::view::View;
use atomic_table::Play;

pub(crate) struct Reporting;

impl Play<(), View> for Reporting {
    ghost then = { λ step me found after. Reports step me found after };
}

impl Scan {
    /// Reports a block to all seats, by one atomic step that leaves the lesser of it and of what
    /// was reported before. The seat keeps the block among its reports, and the lesser as what it
    /// has seen, which is no more than what it had seen.
    pub fn report(&self, seat: &mut ScanSeat, block: u32)
        requires { IsSeatOf self.now seat.old }
        ensures noted { MakesReport seat.old block seat.new }
        ensures legal { ClaimsAreLegal seat.new }
        ensures seen { NoReportIsMissed seat.new }
    {
        let block = u64::from(block);
        let floor = self
            .table
            .shared
            .fetch_min::<Reporting>(&mut seat.token, FLOOR, block);
        seat.seen = floor.min(block);
    }
}
