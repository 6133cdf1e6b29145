ghost use Rattle.std.specs.Prelude.{◌≡◌, ◌<◌, ◌≤◌, ◌++◌, [], IfOk, OnOk, Some, length, map, slice_get};
ghost use Rattle.std.specs.List.Sorted.{IsSorted};
ghost use Rattle.std.specs.Option.{option_copied};
ghost use Rattle.opclass.specs.Order.{bytes_cmp};
ghost use Rattle.run_merge.specs.Cutting.{cut_before, cut_behind};

use crate::between::Between;
use pg_bytes::{Bytes, Items};
use std::alloc::Global;
use std::marker::Model;

/// Where the order is cut into parts, seen as the ascending list of the cuts, each as order bytes
/// or as a normalised key, which is their beginning.
#[derive(Debug, Drop)]
pub struct Cuts {
    cuts: Items<Bytes>,
}

impl Model for Cuts {
    ghost use Rattle.std.specs.Prelude.{List, ℕ, ◌<◌, ◌^◌, length};
    ghost use Rattle.std.specs.List.Sorted.{IsSorted};
    ghost use Rattle.opclass.specs.Order.{bytes_cmp};

    ghost Value = { List (List ℕ) };

    ghost view = { λ cuts. cuts.cuts };

    ghost invariant = { λ cuts. record {
      ascending : IsSorted bytes_cmp cuts.cuts;
      few : length cuts.cuts < 2 ^ 32;
    } };
}

impl Cuts {
    /// No cuts, which take no memory: the one part is the whole.
    pub fn none(alloc: Global) -> Cuts
        ensures { result ≡ [] }
    {
        Cuts::of(Items::new(alloc))
    }

    /// The cuts of this list.
    pub(crate) fn of(cuts: Items<Bytes>) -> Cuts
        requires ascending { IsSorted bytes_cmp cuts }
        requires few { length cuts < 32 }
        ensures { result ≡ cuts }
    {
        Cuts { cuts }
    }

    /// How many cuts there are, which is one less than there are parts.
    pub fn len(&self) -> u32
        ensures length { result ≡ length self.now }
        ensures ascending { IsSorted bytes_cmp self.now }
    {
        self.cuts.len() as u32
    }

    /// The bytes of a cut, counted from 0.
    pub fn get(&self, at: u32) -> &[u8]
        requires { at < length self.now }
        ensures { slice_get self.now at ≡ Some result.now }
    {
        self.cuts.get(at as usize).as_slice()
    }

    /// The cuts between which a part lies, counted from 0.
    pub(crate) fn around(&self, part: u32) -> Between<'_>
        requires { part ≤ length self.now }
        ensures low { option_copied result.low ≡ cut_before self.now part }
        ensures high { option_copied result.high ≡ cut_behind self.now part }
    {
        Between {
            low: self.before(part),
            high: self.behind(part),
        }
    }

    // The cut at which a part begins. The first part has none.
    fn before(&self, part: u32) -> Option<&[u8]>
        requires { part ≤ length self.now }
        ensures { option_copied result ≡ cut_before self.now part }
    {
        if part == 0 {
            None
        } else {
            Some(self.get(part - 1))
        }
    }

    // The cut before which a part ends. The last part has none.
    fn behind(&self, part: u32) -> Option<&[u8]>
        ensures { option_copied result ≡ cut_behind self.now part }
    {
        if part < self.len() {
            Some(self.get(part))
        } else {
            None
        }
    }
}
