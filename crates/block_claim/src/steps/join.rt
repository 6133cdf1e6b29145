ghost use Rattle.std.specs.Prelude.{◌≡◌, true};
ghost use Rattle.block_claim.specs.Views.{joined};
ghost use Rattle.block_claim.specs.Calls.{IsSeatOf, is_done, ramp_of_seat, with_view, ClaimsAreLegal, NoReportIsMissed};
ghost use Rattle.block_claim.specs.Steps.{LooksJoined};

use crate::scan::{NEXT, Scan};
use crate::seat::ScanSeat;
use crate::view::View;
use atomic_table::{Join, Play};

pub(crate) struct Joining;

impl Join<View> for Joining {
    ghost use Rattle.block_claim.specs.Views.{joined, spent};

    ghost both = { joined };

    ghost spent = { spent };
}

impl Play<(), View> for Joining {
    ghost then = { λ step me found after. LooksJoined step me found after };
}

impl Scan {
    /// Puts the claims of a seat behind those of another, with its share, its reports and the
    /// lesser of what the two have seen. The seat that takes them stays what it was: its number and
    /// its place on the ramp are as before.
    pub fn join(&self, into: &mut ScanSeat, from: ScanSeat)
        requires into { IsSeatOf self.now into.old }
        requires from { IsSeatOf self.now from }
        requires into_done { is_done into.old ≡ true }
        requires from_done { is_done from ≡ true }
        ensures joined { into.new ≡ with_view into.old (joined into.old.view from.view) }
        ensures place { ramp_of_seat into.new ≡ ramp_of_seat into.old }
        ensures legal { ClaimsAreLegal into.new }
        ensures seen { NoReportIsMissed into.new }
    {
        let ScanSeat {
            token,
            mut claims,
            seen,
            ..
        } = from;
        self.table
            .shared
            .join_seat::<Joining>(&mut into.token, token);
        self.table.shared.load::<Joining>(&mut into.token, NEXT);
        into.seen = into.seen.min(seen);
        let Ok(()) = into.claims.append(&mut claims) else {
            unreachable!()
        };
    }
}
