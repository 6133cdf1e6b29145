use crate::row_state::RowState;

// `HEAP_HASNULL`: the tuple has a null bitmap.
const HEAP_HASNULL: u16 = 0x0001;

// `HEAP_XMAX_EXCL_LOCK`: xmax locks the tuple exclusively.
const HEAP_XMAX_EXCL_LOCK: u16 = 0x0040;

// `HEAP_LOCK_MASK`: how strongly xmax locks the tuple.
const HEAP_LOCK_MASK: u16 = 0x0050;

// `HEAP_XMAX_LOCK_ONLY`: xmax does no more than lock the tuple.
const HEAP_XMAX_LOCK_ONLY: u16 = 0x0080;

// `HEAP_XMIN_COMMITTED`: the inserting transaction committed.
const HEAP_XMIN_COMMITTED: u16 = 0x0100;

// `HEAP_XMIN_INVALID`: the inserting transaction aborted, or with the bit before, the tuple is
// frozen.
const HEAP_XMIN_INVALID: u16 = 0x0200;

// `HEAP_XMAX_COMMITTED`: the deleting transaction committed.
const HEAP_XMAX_COMMITTED: u16 = 0x0400;

// `HEAP_XMAX_INVALID`: no transaction deleted the tuple.
const HEAP_XMAX_INVALID: u16 = 0x0800;

// `HEAP_XMAX_IS_MULTI`: xmax is a multixact.
const HEAP_XMAX_IS_MULTI: u16 = 0x1000;

// `HEAP_MOVED`: a VACUUM FULL before version 9.0 moved the tuple.
const HEAP_MOVED: u16 = 0xC000;

// `HEAP_NATTS_MASK`: the bits of infomask2 that hold the number of attributes.
const HEAP_NATTS_MASK: u16 = 0x07FF;

// `HEAP_HOT_UPDATED`: the tuple's update is a heap-only tuple of its page.
const HEAP_HOT_UPDATED: u16 = 0x4000;

// `HEAP_ONLY_TUPLE`: no index entry leads to the tuple itself.
const HEAP_ONLY_TUPLE: u16 = 0x8000;

/// The hint bits of a tuple header (`t_infomask` of `htup_details.h`).
#[derive(Clone, Copy, Debug, PartialEq, Eq)]
pub struct Infomask(pub u16);

impl Infomask {
    ghost use Rattle.std.specs.Prelude.{◌≡◌, ◌↔◌, IsSome, IsTrue};
    ghost use Rattle.heap_page.specs.Visibility.{state_of};
    ghost use Rattle.heap_page.specs.Infomask.{has_nulls, is_deleted, is_locked_only, is_moved};
    ghost use Rattle.heap_page.specs.Infomask.{xmin_aborted, xmin_committed, xmin_invalid};
    ghost use Rattle.heap_page.specs.Infomask.{xmax_committed, xmax_invalid, xmax_is_multi};

    /// Whether the tuple has a null bitmap.
    pub fn has_nulls(self) -> bool
        ensures { result ≡ has_nulls self.0 }
    {
        self.0 & HEAP_HASNULL != 0
    }

    /// Whether the inserting transaction is known to have committed.
    pub fn xmin_committed(self) -> bool
        ensures { result ≡ xmin_committed self.0 }
    {
        self.0 & HEAP_XMIN_COMMITTED != 0
    }

    /// Whether the bit of an aborted insertion is set, which a frozen tuple has too.
    pub fn xmin_invalid(self) -> bool
        ensures { result ≡ xmin_invalid self.0 }
    {
        self.0 & HEAP_XMIN_INVALID != 0
    }

    /// Whether the deleting transaction is known to have committed.
    pub fn xmax_committed(self) -> bool
        ensures { result ≡ xmax_committed self.0 }
    {
        self.0 & HEAP_XMAX_COMMITTED != 0
    }

    /// Whether no transaction deleted the tuple.
    pub fn xmax_invalid(self) -> bool
        ensures { result ≡ xmax_invalid self.0 }
    {
        self.0 & HEAP_XMAX_INVALID != 0
    }

    /// Whether xmax is a multixact.
    pub fn xmax_is_multi(self) -> bool
        ensures { result ≡ xmax_is_multi self.0 }
    {
        self.0 & HEAP_XMAX_IS_MULTI != 0
    }

    /// Whether an old VACUUM FULL moved the tuple.
    pub fn is_moved(self) -> bool
        ensures { result ≡ is_moved self.0 }
    {
        self.0 & HEAP_MOVED != 0
    }

    /// Whether xmax locks the tuple and doesn't delete it (`HEAP_XMAX_IS_LOCKED_ONLY`).
    pub fn is_locked_only(self) -> bool
        ensures { result ≡ is_locked_only self.0 }
    {
        self.0 & HEAP_XMAX_LOCK_ONLY != 0
            || self.0 & (HEAP_XMAX_IS_MULTI | HEAP_LOCK_MASK) == HEAP_XMAX_EXCL_LOCK
    }

    /// Whether xmax deleted the tuple, as one transaction that committed.
    pub fn is_deleted(self) -> bool
        ensures { result ≡ is_deleted self.0 }
    {
        self.xmax_committed()
            && !(self.xmax_invalid() || self.is_locked_only() || self.xmax_is_multi())
    }

    /// Whether the bits say what the tuple is, a row or not.
    pub fn is_settled(self) -> bool
        ensures { IsTrue result ↔ IsSome (state_of self.0) }
    {
        RowState::known(self).is_some()
    }

    /// Whether the inserting transaction aborted (`HeapTupleHeaderXminInvalid`).
    pub fn xmin_aborted(self) -> bool
        ensures { result ≡ xmin_aborted self.0 }
    {
        self.xmin_invalid() && !self.xmin_committed()
    }
}

/// The number of attributes and the marks of updates on the page (`t_infomask2` of
/// `htup_details.h`).
#[derive(Clone, Copy, Debug, PartialEq, Eq)]
pub struct Infomask2(pub u16);

impl Infomask2 {
    ghost use Rattle.std.specs.Prelude.{◌≡◌};
    ghost use Rattle.heap_page.specs.Infomask.{attributes_of, has_hot_update, is_heap_only};

    /// How many attributes the tuple has.
    pub fn attributes(self) -> u16
        ensures { result ≡ attributes_of self.0 }
    {
        self.0 & HEAP_NATTS_MASK
    }

    /// Whether the tuple's update is a heap-only tuple of its page.
    pub fn is_hot_updated(self) -> bool
        ensures { result ≡ has_hot_update self.0 }
    {
        self.0 & HEAP_HOT_UPDATED != 0
    }

    /// Whether no index entry leads to the tuple itself.
    pub fn is_heap_only(self) -> bool
        ensures { result ≡ is_heap_only self.0 }
    {
        self.0 & HEAP_ONLY_TUPLE != 0
    }
}
