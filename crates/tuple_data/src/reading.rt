ghost use Rattle.std.specs.Prelude.{◌^◌, ◌<◌, List, IfOk, MatchOption, length};
ghost use Rattle.opclass.specs.declared.value.KeyVal.{KeyVal};
ghost use Rattle.tuple_data.specs.Reading.{AreStored, BeginsWithData};

use crate::values::Values;
use opclass::{ColType, KeyList};
use std::alloc::{AllocError, Global};

/// Reads the values whose data the bytes begin with into memory of their own. None comes exactly
/// where `Values::of` has it.
pub fn read_data(
    alloc: Global,
    kinds: &[ColType],
    present: u64,
    bytes: &[u8],
) -> Result<Option<KeyList>, AllocError>
    requires kinds { AreStored kinds.now }
    requires size { length bytes.now < 2 ^ 30 }
    ensures { IfOk result (λ read. MatchOption read
        ((values : List KeyVal) → BeginsWithData kinds.now present bytes.now values → ⊥)
        (λ values. BeginsWithData kinds.now present bytes.now values)) }
{
    match Values::of(kinds, present, bytes) {
        None => Ok(None),
        Some(values) => Ok(Some(values.copy(alloc)?)),
    }
}
