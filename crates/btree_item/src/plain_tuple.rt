ghost use Rattle.std.specs.Prelude.{◌≡◌, ◌≤◌, ◌++◌, length, IfOk, OnOk, OnErr};
ghost use Rattle.btree_item.specs.Leaf.{plain_image};
ghost use Rattle.btree_item.specs.Tuple.{size_of};

use crate::tuple::{marks, put_tuple, tuple_size};
use opclass::{ColType, KeyList, KeyVal, Kinds};
use pg_bytes::{Bytes, Items, RowPtr};
use std::alloc::{AllocError, Global};

/// The tuple of a row: its keys and then its INCLUDE values, and its row pointer.
pub fn plain(
    alloc: Global,
    kinds: &Kinds,
    values: &KeyList,
    ptr: RowPtr,
) -> Result<Bytes, AllocError>
    requires few { length values.now ≤ 32 }
    requires size { size_of kinds.now values.now ≤ 2704 }
    ensures { IfOk result (λ bytes. bytes ≡ plain_image kinds.now values.now ptr) }
{
    let (kinds, values) = (kinds.as_slice(), values.as_slice());
    let mut out = Vec::new(alloc);
    put_plain(&mut out, kinds, values, tuple_size(kinds, values), ptr)?;
    Ok(Items::from_vec(out))
}

/// Puts the tuple of a row, whose size in bytes its owner knows from `size_of`, behind the bytes of
/// a buffer. An error means that no memory was left, and then the buffer's bytes are as before.
pub fn put_plain(
    out: &mut Vec<u8>,
    kinds: &[ColType],
    values: &[KeyVal],
    size: u64,
    ptr: RowPtr,
) -> Result<(), AllocError>
    requires few { length values.now ≤ 32 }
    requires size { size ≡ size_of kinds.now values.now }
    requires small { size ≤ 2704 }
    ensures ok { OnOk result
        (out.new.items ≡ out.old.items ++ plain_image kinds.now values.now ptr) }
    ensures err { OnErr result (out.new.items ≡ out.old.items) }
{
    let start = out.len();
    let info = size as u16 + marks(kinds, values);
    let put = put_tuple(out, ptr, info, size, kinds, values);
    if put.is_err() {
        out.truncate(start);
    }
    put
}
