ghost use Rattle.std.specs.Prelude.{◌≡◌, Some, IsSome};
ghost use Rattle.heap_page.specs.Visibility.{state_of};

use crate::header::Header;
use crate::infomask::Infomask;

/// Whether a settled tuple is a row.
#[derive(Clone, Copy, Debug, PartialEq, Eq)]
pub enum RowState {
    /// The tuple is a row of the table.
    Live,
    /// The tuple was deleted, or its insertion aborted.
    Dead,
}

/// Whether a settled tuple is a row, by its hint bits alone (`HeapTupleSatisfiesVacuum` of
/// `heapam_visibility.c`, where no transaction runs).
pub fn state(header: &Header) -> RowState
    requires { IsSome (state_of header.now.infomask) }
    ensures { state_of header.now.infomask ≡ Some result }
{
    RowState::known(header.infomask_bits()).unwrap()
}

impl RowState {
    // What the hint bits alone say of a tuple. None comes exactly where they don't settle it. A
    // lock is asked for before a multixact, since a multixact of lockers alone deletes nothing.
    pub(crate) fn known(infomask: Infomask) -> Option<RowState>
        ensures { result ≡ state_of infomask.0 }
    {
        if infomask.is_moved() || !(infomask.xmin_committed() || infomask.xmin_invalid()) {
            None
        } else if infomask.xmin_aborted() {
            Some(RowState::Dead)
        } else if infomask.xmax_invalid() || infomask.is_locked_only() {
            Some(RowState::Live)
        } else if infomask.is_deleted() {
            Some(RowState::Dead)
        } else {
            None
        }
    }
}
