ghost use Rattle.std.specs.Prelude.{◌≡◌, ◌↔◌, IsTrue, All, Some, option_and_then};
ghost use Rattle.std.specs.Option.{option_copied};
ghost use Rattle.opclass.specs.Filter.{is_met, verdict, value_of, CondHolds, PassesFilter};

use crate::key_list::KeyList;
use crate::table::Columns;
use crate::value::KeyVal;
use pg_bytes::{Bytes, Items};
use std::cmp::Ordering;

/// A comparison.
#[derive(Clone, Copy, Debug, PartialEq, Eq)]
pub enum Op {
    Eq,
    Ne,
    Lt,
    Le,
    Gt,
    Ge,
}

/// What a condition asks of a value.
#[derive(Debug, Drop)]
pub enum Test {
    IsNull,
    NotNull,
    Num { op: Op, value: i64 },
    Raw { op: Op, value: Bytes },
}

/// A condition on a column of the table.
#[derive(Debug, Drop)]
pub struct Cond {
    pub column: u16,
    pub test: Test,
}

/// Conditions, each of which a row has to meet.
pub type Filter = Items<Cond>;

/// Whether a row passes a filter, by the values of these columns: each condition has to be true,
/// and a comparison with null is unknown, which isn't true. Nothing is true of a column that has
/// no value here.
pub fn keeps(filter: &Filter, columns: &Columns, values: &KeyList) -> bool
    ensures { IsTrue result ↔ PassesFilter filter.now columns.now values.now }
{
    filter
        .as_slice()
        .iter()
        .all(|cond| holds(cond, columns.as_slice(), values.as_slice()))
}

// Whether a condition is true.
fn holds(cond: &Cond, columns: &[u16], values: &[KeyVal]) -> bool
    ensures { IsTrue result ↔ CondHolds columns.now values.now cond.now }
{
    match value_of(columns, values, cond.column) {
        Some(value) => test_of(&cond.test, value) == Some(true),
        None => false,
    }
}

// The value of a column, of the values of these columns.
fn value_of<'a>(mut columns: &[u16], mut values: &'a [KeyVal], column: u16) -> Option<&'a KeyVal>
    ensures { option_copied result ≡ value_of columns.entry.now values.entry.now column }
{
    while let [first, more @ ..] = columns {
        let [value, others @ ..] = values else {
            return None;
        };
        if *first == column {
            return Some(value);
        }
        columns = more;
        values = others;
    }
    None
}

// What a test says of a value, or None where that is unknown.
fn test_of(test: &Test, value: &KeyVal) -> Option<bool>
    ensures { result ≡ verdict test.now value.now }
{
    match (test, value) {
        (Test::IsNull, KeyVal::Nil) => Some(true),
        (Test::IsNull, _) => Some(false),
        (Test::NotNull, KeyVal::Nil) => Some(false),
        (Test::NotNull, _) => Some(true),
        (Test::Num { op, value: literal }, KeyVal::Num(number)) => {
            Some(op.is_met(number.cmp(literal)))
        }
        (Test::Raw { op, value: literal }, KeyVal::Raw(bytes)) => {
            Some(op.is_met(bytes.as_slice().cmp(literal.as_slice())))
        }
        _ => None,
    }
}

impl Op {
    /// Whether a comparison is true of two values that stand to each other in this way.
    pub fn is_met(self, order: Ordering) -> bool
        ensures { result ≡ is_met self order }
    {
        match self {
            Op::Eq => order.is_eq(),
            Op::Ne => order.is_ne(),
            Op::Lt => order.is_lt(),
            Op::Le => order.is_le(),
            Op::Gt => order.is_gt(),
            Op::Ge => order.is_ge(),
        }
    }
}
