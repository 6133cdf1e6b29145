ghost use Rattle.std.specs.Prelude.{◌≡◌, ◌-◌, ◌^◌, ◌<◌, ◌≤◌, ℕ, List, IfOk, IfSome, Some, length};
ghost use Rattle.std.specs.List.{AllZip};
ghost use Rattle.pg_bytes.specs.declared.row_ptr.RowPtr.{RowPtr};
ghost use Rattle.opclass.specs.Values.{IsValueOf};
ghost use Rattle.opclass.specs.declared.value.KeyVal.{KeyVal};
ghost use Rattle.tuple_data.specs.Reading.{AreStored, BeginsWithData};
ghost use Rattle.btree_item.specs.Tuple.{size_of};
ghost use Rattle.btree_item.specs.TupleReading.{BeginsWithTuple};

use crate::tuple::{HAS_NULL, HEAD, T_INFO};
use opclass::{ColType, KeyList};
use pg_bytes::{u16_at, u32_at};
use std::alloc::{AllocError, Global};
use tuple_data::read_data;

// Where the data begin behind a null bitmap.
const BEHIND_BITMAP: usize = 16;

// The values of the index tuple that bytes begin with (`index_deform_tuple` of `indextuple.c`).
// None comes only where they begin with none.
pub(crate) fn read_values(
    alloc: Global,
    kinds: &[ColType],
    bytes: &[u8],
) -> Result<Option<KeyList>, AllocError>
    requires few { length kinds.now ≤ 32 }
    requires stored { AreStored kinds.now }
    requires head { 8 ≤ length bytes.now }
    requires size { length bytes.now ≤ 2712 }
    ensures typed { IfOk result (λ answer. IfSome answer (AllZip IsValueOf kinds.now)) }
    ensures small { IfOk result (λ answer. IfSome answer (λ values.
        size_of kinds.now values < 2 ^ 13)) }
    ensures only { IfOk result (λ answer. (front : RowPtr) (size : ℕ) (values : List KeyVal)
        → BeginsWithTuple kinds.now bytes.now front size values → answer ≡ Some values) }
{
    if u16_at(bytes, T_INFO) < HAS_NULL {
        read_present(alloc, kinds, all_bits(kinds.len()), &bytes[HEAD..])
    } else if bytes.len() < BEHIND_BITMAP {
        Ok(None)
    } else {
        let present = u64::from(u32_at(bytes, HEAD));
        read_present(alloc, kinds, present, &bytes[BEHIND_BITMAP..])
    }
}

// The null bits of so many columns that all have a value.
fn all_bits(count: usize) -> u64
    requires { count ≤ 32 }
    ensures { result ≡ 2 ^ count - 1 }
{
    (1 << count) - 1
}

// The values whose data bytes begin with, by the null bits. None comes only where there are none.
fn read_present(
    alloc: Global,
    kinds: &[ColType],
    present: u64,
    bytes: &[u8],
) -> Result<Option<KeyList>, AllocError>
    requires stored { AreStored kinds.now }
    requires size { length bytes.now ≤ 2712 }
    ensures typed { IfOk result (λ answer. IfSome answer (AllZip IsValueOf kinds.now)) }
    ensures small { IfOk result (λ answer. IfSome answer (λ values.
        size_of kinds.now values < 2 ^ 13)) }
    ensures only { IfOk result (λ answer. (values : List KeyVal)
        → BeginsWithData kinds.now present bytes.now values → answer ≡ Some values) }
{
    read_data(alloc, kinds, present, bytes)
}
