use opclass::KeyList;
use pg_bytes::{RowPtr, RowPtrs};

/// What a tuple of a B-tree says.
#[derive(Debug, Drop)]
pub enum Item {
    /// On a leaf, the keys and INCLUDE values of a row, and its row pointer.
    Plain {
        keys: KeyList,
        ptr: RowPtr,
    },
    /// On a leaf, the keys of several rows, and their row pointers, which ascend.
    Posting {
        keys: KeyList,
        ptrs: RowPtrs,
    },
    /// Between pages, the first attributes of a tuple, and above the leaves the page that it leads
    /// to, 0 in a leaf's high key. It has a row pointer only where it keeps all attributes.
    Pivot {
        keys: KeyList,
        last: Option<RowPtr>,
        child: u32,
    },
}
