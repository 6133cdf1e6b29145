ghost use Rattle.std.specs.Prelude.{◌≡◌};

use std::alloc::AllocError;

/// What can be wrong with a page's HOT chains.
#[derive(Clone, Copy, Debug, PartialEq, Eq)]
pub enum RootCause {
    /// A live heap-only tuple that no chain leads to (`heap_get_root_tuples` of `pruneheap.c`).
    Orphan,
    /// A live tuple whose root leads to a lesser live tuple too.
    SharedRoot,
}

impl RootCause {
    ghost use Rattle.hot_chain.specs.Roots.{number_of_root_cause};

    /// The number by which a fault tells its cause.
    pub fn number(self) -> u8
        ensures { result ≡ number_of_root_cause self }
    {
        match self {
            RootCause::Orphan => 5,
            RootCause::SharedRoot => 6,
        }
    }
}

/// Why the roots of a page aren't found: the least item that has a fault, with its cause's number,
/// or want of memory.
#[derive(Clone, Copy, Debug, PartialEq, Eq)]
pub enum RootFault {
    /// An item that has a fault, by its line pointer's number, and the number of a `RootCause`.
    Item { item: u16, cause: u8 },
    /// Memory ran out.
    Memory,
}

impl RootFault {
    ghost use Rattle.hot_chain.specs.Roots.{number_of_root_cause};

    // The fault of an item.
    pub(crate) fn of(item: u16, cause: RootCause) -> RootFault
        ensures { result ≡ RootFault.Item item (number_of_root_cause cause) }
    {
        RootFault::Item {
            item,
            cause: cause.number(),
        }
    }
}

impl From<AllocError> for RootFault {
    ghost use Rattle.hot_chain.specs.declared.fault.RootFault.TheVariants.{Memory};

    ghost from_gives = { λ _ fault. fault ≡ Memory };

    fn from(_: AllocError) -> RootFault {
        RootFault::Memory
    }
}
