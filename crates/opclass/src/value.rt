use crate::types::ColType;
use pg_bytes::{Bytes, Items};

/// An element of an array.
#[derive(Debug, Drop)]
pub enum Elem {
    Null,
    Num(i64),
    Raw(Bytes),
}

/// The elements of an array.
pub type ElemList = Items<Elem>;

/// The value of a column. A truth value, a number, a date and a time are a Num, an array is Items,
/// and every other value is a Raw.
#[derive(Debug, Drop)]
pub enum KeyVal {
    Nil,
    Num(i64),
    Raw(Bytes),
    Items(ElemList),
}

/// The types of several columns.
pub type Kinds = Items<ColType>;
