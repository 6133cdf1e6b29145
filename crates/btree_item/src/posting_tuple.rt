ghost use Rattle.std.specs.Prelude.{◌≡◌, ◌+◌, ◌-◌, ◌*◌, ◌≤◌, ◌++◌, length, take, IfOk, OnOk, OnErr};
ghost use Rattle.std.specs.List.{flat_map};
ghost use Rattle.pg_bytes.specs.Pointers.{row_pointer_bytes};
ghost use Rattle.btree_item.specs.Leaf.{posting_image, posting_size};

use crate::tuple::{NO_ROW, fill_up, marks, put_tuple, tuple_size};
use opclass::{ColType, KeyList, KeyVal, Kinds};
use pg_bytes::{Bytes, Items, RowPtr, al8};
use std::alloc::{AllocError, Global};

// The mark of a posting tuple in the offset part (`BT_IS_POSTING` of `nbtree.h`).
pub(crate) const POSTING: u16 = 0x2000;

// The bytes of a row pointer.
pub(crate) const POINTER: usize = 6;

/// The tuple of several rows with the same keys, whose row pointers ascend (`_bt_form_posting` of
/// `nbtdedup.c`).
pub fn posting(
    alloc: Global,
    kinds: &Kinds,
    keys: &KeyList,
    ptrs: &[RowPtr],
) -> Result<Bytes, AllocError>
    requires few { length keys.now ≤ 32 }
    requires size { posting_size kinds.now keys.now (length ptrs.now) ≤ 2704 }
    ensures { IfOk result (λ bytes. bytes ≡ posting_image kinds.now keys.now ptrs.now) }
{
    let mut out = Vec::new(alloc);
    put_posting(&mut out, kinds.as_slice(), keys.as_slice(), ptrs)?;
    Ok(Items::from_vec(out))
}

/// Puts the tuple of several rows with the same keys behind the bytes of a buffer. An error means
/// that no memory was left, and then the buffer's bytes are as before.
#[inline(never)]
pub fn put_posting(
    out: &mut Vec<u8>,
    kinds: &[ColType],
    keys: &[KeyVal],
    ptrs: &[RowPtr],
) -> Result<(), AllocError>
    requires few { length keys.now ≤ 32 }
    requires size { posting_size kinds.now keys.now (length ptrs.now) ≤ 2704 }
    ensures ok { OnOk result
        (out.new.items ≡ out.old.items ++ posting_image kinds.now keys.now ptrs.now) }
    ensures err { OnErr result (out.new.items ≡ out.old.items) }
{
    let start = out.len();
    let put = put_parts(out, kinds, keys, ptrs);
    if put.is_err() {
        out.truncate(start);
    }
    put
}

// Puts a posting tuple, of which an error leaves a part.
fn put_parts(
    out: &mut Vec<u8>,
    kinds: &[ColType],
    keys: &[KeyVal],
    ptrs: &[RowPtr],
) -> Result<(), AllocError>
    requires few { length keys.now ≤ 32 }
    requires size { posting_size kinds.now keys.now (length ptrs.now) ≤ 2704 }
    ensures ok { OnOk result
        (out.new.items ≡ out.old.items ++ posting_image kinds.now keys.now ptrs.now) }
    ensures err { OnErr result (take (length out.old.items) out.new.items ≡ out.old.items) }
{
    let start = out.len();
    let keys_size = tuple_size(kinds, keys);
    let size = al8(keys_size + (POINTER * ptrs.len()) as u64);
    let front = RowPtr {
        block: keys_size as u32,
        offset: ptrs.len() as u16 + POSTING,
    };
    let info = size as u16 + NO_ROW + marks(kinds, keys);
    put_tuple(out, front, info, keys_size, kinds, keys)?;
    put_pointers(out, ptrs)?;
    fill_up(out, start + size as usize)
}

// Puts row pointers one behind the other.
fn put_pointers(out: &mut Vec<u8>, ptrs: &[RowPtr]) -> Result<(), AllocError>
    ensures ok { OnOk result
        (out.new.items ≡ out.old.items ++ flat_map row_pointer_bytes ptrs.now) }
    ensures err { OnErr result (take (length out.old.items) out.new.items ≡ out.old.items) }
{
    for ptr in ptrs {
        ptr.append(out)?;
    }
    Ok(())
}
