use crate::rule::ClaimRule;
use crate::view::{Extent, View};
use atomic_table::Table;
use std::alloc::Global;
use std::marker::Model;

/// The word with the first number that no claim has yet (`phs_nallocated`).
pub(crate) const NEXT: usize = 0;

/// The word with the least reported block.
pub(crate) const FLOOR: usize = 1;

/// A scan of the blocks of a heap by several seats. Threads share it by reference.
#[derive(Drop)]
pub struct Scan {
    pub(crate) table: Table<(), View, Extent, ClaimRule, Global>,
    pub(crate) blocks: u32,
    pub(crate) seats: u32,
}

impl Model for Scan {
    ghost use Rattle.block_claim.specs.Calls.{ScanState};

    ghost Value = { ScanState };

    ghost use Rattle.block_claim.specs.Scans.{scan_state, IsSoundScan};

    ghost view = { scan_state };

    ghost invariant = { IsSoundScan };
}
