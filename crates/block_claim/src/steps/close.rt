ghost use Rattle.std.specs.Prelude.{◌≡◌, true, min};
ghost use Rattle.block_claim.specs.Legal.{IsLegalInSomeOrder};
ghost use Rattle.block_claim.specs.Calls.{IsSeatOf, is_done, HasWholeShare, NoReportIsMissed};

use crate::claim::Claims;
use crate::scan::Scan;
use crate::seat::ScanSeat;

impl Scan {
    /// Ends the scan and gives the claims of all its seats, seat by seat in the order in which they
    /// were joined.
    pub fn close(self, seat: ScanSeat) -> Claims
        requires scan { IsSeatOf self seat }
        requires done { is_done seat ≡ true }
        requires whole { HasWholeShare seat }
        ensures claims { result ≡ seat.view.claims }
        ensures legal { IsLegalInSomeOrder self.blocks self.seats result }
        ensures seen { NoReportIsMissed seat }
    {
        let ScanSeat { claims, .. } = seat;
        Claims::from_vec(claims)
    }
}
