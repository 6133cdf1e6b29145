ghost use Rattle.std.specs.Prelude.{◌≡◌, ◌+◌, ◌-◌, ◌*◌, ◌^◌, ◌≤◌, ◌<◌, [], ◌∷◌, IfOk};
ghost use Rattle.block_claim.specs.Calls.{AreOpened, IsFresh};
ghost use Rattle.block_claim.specs.Opening.{undealt};

use crate::rule::ClaimRule;
use crate::scan::Scan;
use crate::seat::ScanSeat;
use crate::view::{Extent, View};
use atomic_table::{Seat, Split, Table};
use std::alloc::{AllocError, Global};

pub(crate) struct Dealing;

impl Split<View> for Dealing {
    ghost use Rattle.block_claim.specs.Views.{left_over, handed_out};

    ghost left = { left_over };

    ghost right = { handed_out };
}

impl Scan {
    /// Opens a scan of so many blocks by so many seats, which stand in the order of their numbers,
    /// with nothing claimed or reported. It takes all memory that the claims will need.
    pub fn open(alloc: Global, blocks: u32, seats: u32) -> Result<(Scan, Vec<ScanSeat>), AllocError>
        requires blocks { blocks ≤ 2 ^ 20 }
        requires seats { (1 ≤ seats) × (seats ≤ 32) }
        ensures blocks { IfOk result (λ opened. opened.0.blocks ≡ blocks) }
        ensures seats { IfOk result (λ opened. opened.0.seats ≡ seats) }
        ensures opened { IfOk result (λ opened. AreOpened opened.0 opened.1.items) }
    {
        let (table, first) = Table::of_words(alloc, &[0, u64::MAX], &Extent { blocks, seats })?;
        let scan = Scan {
            table,
            blocks,
            seats,
        };
        let dealt = scan.deal(alloc, first)?;
        Ok((scan, dealt))
    }
}

impl Scan {
    // A seat for each number, from the first view.
    fn deal(&self, alloc: Global, mut rest: Seat<(), View>) -> Result<Vec<ScanSeat>, AllocError>
        requires table { rest.table_id ≡ self.now.table }
        requires first { rest.me ≡ (undealt self.now 0, []) }
        requires some { 1 ≤ self.now.seats }
        ensures { IfOk result (λ seats. AreOpened self.now seats.items) }
    {
        let mut seats = Vec::with_capacity(alloc, self.seats as usize)?;
        for worker in 0..self.seats - 1 {
            let token = self.table.shared.split_seat::<Dealing>(&mut rest);
            seats.push_reserved(ScanSeat::new(alloc, token, worker, self.blocks)?);
        }
        seats.push_reserved(ScanSeat::new(alloc, rest, self.seats - 1, self.blocks)?);
        Ok(seats)
    }
}
