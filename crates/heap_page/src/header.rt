use crate::infomask::{Infomask, Infomask2};
use pg_bytes::RowPtr;

/// A heap tuple's header (`HeapTupleHeaderData` of `htup_details.h`).
#[derive(Clone, Copy, Debug, PartialEq, Eq)]
pub struct Header {
    /// The transaction that inserted the tuple.
    pub xmin: u32,
    /// The transaction that deleted or locked the tuple.
    pub xmax: u32,
    /// The tuple itself, or the version that replaced it.
    pub ctid: RowPtr,
    /// The number of attributes and the marks of updates on the page.
    pub infomask2: u16,
    /// The hint bits.
    pub infomask: u16,
    /// Where the attributes begin, in bytes from the tuple's first.
    pub hoff: u8,
}

impl Header {
    ghost use Rattle.std.specs.Prelude.{◌≡◌, ◌↔◌, IsSome, IsTrue};
    ghost use Rattle.heap_page.specs.Infomask.{is_heap_only};
    ghost use Rattle.heap_page.specs.Visibility.{state_of};

    /// The hint bits, which say whether the tuple is a row.
    pub fn infomask_bits(&self) -> Infomask
        ensures { result.0 ≡ self.now.infomask }
    {
        Infomask(self.infomask)
    }

    /// The number of attributes and the marks of updates on the page.
    pub fn infomask2_bits(&self) -> Infomask2
        ensures { result.0 ≡ self.now.infomask2 }
    {
        Infomask2(self.infomask2)
    }

    /// Whether no index entry leads to the tuple itself (`HeapTupleHeaderIsHeapOnly`).
    pub fn is_heap_only(&self) -> bool
        ensures { result ≡ is_heap_only self.now.infomask2 }
    {
        self.infomask2_bits().is_heap_only()
    }

    /// Whether the hint bits say what the tuple is.
    pub fn is_settled(&self) -> bool
        ensures { IsTrue result ↔ IsSome (state_of self.now.infomask) }
    {
        self.infomask_bits().is_settled()
    }
}
