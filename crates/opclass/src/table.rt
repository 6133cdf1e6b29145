use crate::types::ColType;
use pg_bytes::{Bytes, Items};

/// A column of a table.
#[derive(Debug, Drop)]
pub struct Column {
    pub name: Bytes,
    pub kind: ColType,
}

/// The columns of a table in their order, numbered from 1.
pub type ColumnList = Items<Column>;

/// Numbers of columns of a table.
pub type Columns = Items<u16>;

/// A table.
#[derive(Debug, Drop)]
pub struct Table {
    pub name: Bytes,
    pub columns: ColumnList,
}
