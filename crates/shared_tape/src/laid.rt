ghost use Rattle.std.specs.Prelude.{◌≡◌, ◌+◌, ◌∷◌, [], ◌++◌, ◌≤◌, ◌<◌, OnOk, length, vec_capacity};

use std::alloc::{AllocError, Global};

/// Records one behind the other, in the order in which a merge reads them, and where each starts.
#[derive(Debug, Drop)]
pub(crate) struct Laid {
    pub bytes: Vec<u8>,
    pub starts: Vec<usize>,
}

impl Laid {
    pub fn new(alloc: Global) -> Laid
        ensures bytes { result.bytes.items ≡ [] }
        ensures starts { result.starts.items ≡ [] }
    {
        Laid {
            bytes: Vec::new(alloc),
            starts: Vec::new(alloc),
        }
    }
}

/// Makes room for this many bytes and one record more than these.
pub(crate) fn make_room(laid: &mut Laid, bytes: usize, records: usize) -> Result<(), AllocError>
    ensures bytes { laid.new.bytes.items ≡ laid.old.bytes.items }
    ensures starts { laid.new.starts.items ≡ laid.old.starts.items }
    ensures room { OnOk result
        (length laid.old.bytes.items + bytes ≤ vec_capacity laid.new.bytes) }
    ensures slots { OnOk result
        (length laid.old.starts.items + records ≤ vec_capacity laid.new.starts) }
    ensures more_room { vec_capacity laid.old.bytes ≤ vec_capacity laid.new.bytes }
    ensures more_slots { vec_capacity laid.old.starts ≤ vec_capacity laid.new.starts }
{
    laid.bytes.reserve(bytes)?;
    laid.starts.reserve(records)
}

/// Lays a record's bytes behind the others, where there is room.
pub(crate) fn lay(laid: &mut Laid, stored: &[u8])
    requires room { length laid.old.bytes.items + length stored.now
        ≤ vec_capacity laid.old.bytes }
    requires slots { length laid.old.starts.items < vec_capacity laid.old.starts }
    ensures bytes { laid.new.bytes.items ≡ laid.old.bytes.items ++ stored.now }
    ensures starts { laid.new.starts.items
        ≡ laid.old.starts.items ++ length laid.old.bytes.items ∷ [] }
    ensures more_room { vec_capacity laid.old.bytes ≤ vec_capacity laid.new.bytes }
    ensures more_slots { vec_capacity laid.old.starts ≤ vec_capacity laid.new.starts }
{
    laid.starts.push_reserved(laid.bytes.len());
    let Ok(()) = laid.bytes.extend_from_slice(stored) else {
        unreachable!()
    };
}
