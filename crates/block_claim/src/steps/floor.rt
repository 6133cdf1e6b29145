ghost use Rattle.std.specs.Prelude.{◌≡◌, ◌≤◌};
ghost use Rattle.block_claim.specs.Views.{with_seen};
ghost use Rattle.block_claim.specs.Calls.{IsSeatOf, with_view, ClaimsAreLegal, NoReportIsMissed};
ghost use Rattle.block_claim.specs.Steps.{SeesFloor};

use crate::scan::{FLOOR, Scan};
use crate::seat::ScanSeat;
use crate::view::View;
use atomic_table::Play;

pub(crate) struct Looking;

impl Play<(), View> for Looking {
    ghost then = { λ step me found after. SeesFloor step me found after };
}

impl Scan {
    /// The least block that any seat has reported so far, or the greatest number where none has, by
    /// one load. The seat keeps it as what it has seen, and it is no more than what it had seen.
    pub fn floor(&self, seat: &mut ScanSeat) -> u64
        requires { IsSeatOf self.now seat.old }
        ensures noted { seat.new ≡ with_view seat.old (with_seen seat.old.view result) }
        ensures falls { result ≤ seat.old.view.seen }
        ensures legal { ClaimsAreLegal seat.new }
        ensures seen { NoReportIsMissed seat.new }
    {
        let floor = self.table.shared.load::<Looking>(&mut seat.token, FLOOR);
        seat.seen = floor;
        floor
    }
}
