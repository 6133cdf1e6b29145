use crate::filter::Filter;
use crate::table::Columns;
use crate::types::Method;
use pg_bytes::{Bytes, Items};

/// A key column of an index: which column of the table it is, and how it is sorted.
#[derive(Clone, Copy, Debug, PartialEq, Eq)]
pub struct KeyCol {
    pub column: u16,
    pub descending: bool,
    pub nulls_first: bool,
}

/// The key columns of an index in their order.
pub type KeyColList = Items<KeyCol>;

/// An index, as its statement describes it.
#[derive(Debug, Drop)]
pub struct IndexSpec {
    pub name: Bytes,
    pub method: Method,
    pub unique: bool,
    /// Whether rows with a null among their keys are unequal under the unique rule.
    pub nulls_distinct: bool,
    pub keys: KeyColList,
    pub includes: Columns,
    /// How full the leaves of a B-tree are packed, in hundredths.
    pub fillfactor: u8,
    /// Whether rows of one key share a tuple in a B-tree.
    pub deduplicate: bool,
    /// How many blocks of the heap a BRIN range has.
    pub pages_per_range: u32,
    /// Which rows the index has.
    pub filter: Filter,
}

/// How the values of a column are sorted.
#[derive(Clone, Copy, Debug, PartialEq, Eq)]
pub struct SortPart {
    pub descending: bool,
    pub nulls_first: bool,
}

/// How the lists of values of several columns are sorted.
pub type SortSpec = Items<SortPart>;
