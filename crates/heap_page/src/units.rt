ghost use Rattle.std.specs.Prelude.{◌↔◌, ◌⊎◌, ◌≤◌, ◌<◌, ℕ, MatchBool};
ghost use Rattle.heap_page.specs.Pass.Units.{IsMarked};

use crate::layout::ALIGNMENT;
use pg_bytes::PAGE;

// How many units of its alignment a page has.
const UNITS: usize = PAGE / ALIGNMENT as usize;

// The eight-byte units of a page that its items have a part in. Items begin at multiples of eight,
// so two of them share a byte exactly where they share a unit.
#[derive(Drop)]
pub(crate) struct Units {
    pub(crate) marked: [bool; UNITS],
}

impl Units {
    // No unit is marked.
    pub(crate) fn new() -> Units
        ensures { (unit : ℕ) → IsMarked result.marked unit → ⊥ }
    {
        Units {
            marked: [false; UNITS],
        }
    }

    // Whether none of the units from one to before another is marked.
    pub(crate) fn is_free(&self, from: usize, to: usize) -> bool
        requires order { from ≤ to }
        requires within { to ≤ UNITS }
        ensures { MatchBool result
            ((unit : ℕ) → from ≤ unit → unit < to → IsMarked self.now.marked unit → ⊥)
            ((unit : ℕ) × (from ≤ unit) × (unit < to) × IsMarked self.now.marked unit) }
    {
        !self.marked[from..to].contains(&true)
    }

    // Marks the units from one to before another.
    pub(crate) fn mark(&mut self, from: usize, to: usize)
        requires order { from ≤ to }
        requires within { to ≤ UNITS }
        ensures { (unit : ℕ)
            → IsMarked self.new.marked unit
            ↔ (IsMarked self.old.marked unit ⊎ ((from ≤ unit) × (unit < to))) }
    {
        self.marked[from..to].fill(true);
    }
}
