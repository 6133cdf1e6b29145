//! What of a row is too large for its index.

ghost use Rattle.std.specs.Prelude.{◌≡◌};
ghost use Rattle.build_leader.specs.IndexRow.{number_of_width_cause};
ghost use Rattle.build_leader.specs.Reader.{fault_of_width};

use heap_row::RowFault;

/// What of a row is too large for its index: a B-tree takes tuples of at most a third of a page, a
/// GIN index entries whose tuples have at most that. A BRIN index tells of ranges, and asks nothing
/// of a row.
#[derive(Clone, Copy)]
pub enum WidthCause {
    /// Its tuple in a B-tree.
    Tuple,
    /// The tuple of one of its entries in a GIN index.
    Entry,
}

impl WidthCause {
    /// The number by which a fault tells its cause.
    pub fn number(self) -> u8
        ensures { result ≡ number_of_width_cause self }
    {
        match self {
            WidthCause::Tuple => 12,
            WidthCause::Entry => 13,
        }
    }
}

/// The fault of a row that is too large.
pub(crate) fn refusal(cause: WidthCause) -> RowFault
    ensures { result ≡ fault_of_width cause }
{
    RowFault::Value {
        cause: cause.number(),
    }
}
