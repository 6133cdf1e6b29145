ghost use Rattle.std.specs.Prelude.{◌≡◌, ◌+◌, ◌≤◌, ◌++◌, length, take, IfOk, OnOk, OnErr};
ghost use Rattle.btree_item.specs.Pivot.{image_of_attributes, pivot_image, pivot_offset, pivot_tail, tail_size};
ghost use Rattle.btree_item.specs.Tuple.{size_of};

use crate::tuple::{NO_ROW, marks, put_tuple, tuple_size};
use opclass::{ColType, KeyList, KeyVal, Kinds};
use pg_bytes::{Bytes, Items, RowPtr};
use std::alloc::{AllocError, Global};

// The mark of a pivot with a row pointer in the offset part (`BT_PIVOT_HEAP_TID_ATTR` of
// `nbtree.h`).
pub(crate) const WITH_POINTER: u16 = 0x1000;

// The bytes that a row pointer takes at the end, with two zeros before it.
const TAIL: u16 = 8;

/// The pivot that keeps the first attributes of a tuple and leads to a child, or 0 in a leaf's high
/// key. `last` is the row pointer that it takes along where it keeps all attributes and none of
/// them tells the neighbours apart (`_bt_truncate` of `nbtutils.c`).
pub fn pivot(
    alloc: Global,
    kinds: &Kinds,
    keys: &KeyList,
    kept: u16,
    last: Option<RowPtr>,
    child: u32,
) -> Result<Bytes, AllocError>
    requires columns { length kinds.now ≡ length keys.now }
    requires few { length keys.now ≤ 32 }
    requires kept { kept ≤ length keys.now }
    requires size { size_of (take kept kinds.now) (take kept keys.now) ≤ 2704 }
    ensures { IfOk result (λ bytes. bytes ≡ pivot_image kinds.now keys.now kept last child) }
{
    let mut out = Vec::new(alloc);
    put_pivot(
        &mut out,
        kinds.as_slice(),
        keys.as_slice(),
        kept,
        last,
        child,
    )?;
    Ok(Items::from_vec(out))
}

/// Puts the pivot behind the bytes of a buffer. An error means that no memory was left, and then
/// the buffer's bytes are as before.
pub fn put_pivot(
    out: &mut Vec<u8>,
    kinds: &[ColType],
    keys: &[KeyVal],
    kept: u16,
    last: Option<RowPtr>,
    child: u32,
) -> Result<(), AllocError>
    requires columns { length kinds.now ≡ length keys.now }
    requires few { length keys.now ≤ 32 }
    requires kept { kept ≤ length keys.now }
    requires size { size_of (take kept kinds.now) (take kept keys.now) ≤ 2704 }
    ensures ok { OnOk result
        (out.new.items ≡ out.old.items ++ pivot_image kinds.now keys.now kept last child) }
    ensures err { OnErr result (out.new.items ≡ out.old.items) }
{
    let start = out.len();
    let count = usize::from(kept);
    let put = put_attributes(out, &kinds[..count], &keys[..count], kept, last, child);
    if put.is_err() {
        out.truncate(start);
    }
    put
}

// Puts the pivot of these attributes, of which an error leaves a part.
#[tactic(auto, unfolding(crate::specs::Pivot::image_of_attributes))]
pub(crate) fn put_attributes(
    out: &mut Vec<u8>,
    kinds: &[ColType],
    keys: &[KeyVal],
    kept: u16,
    last: Option<RowPtr>,
    child: u32,
) -> Result<(), AllocError>
    requires few { length keys.now ≤ 32 }
    requires kept { kept ≤ 32 }
    requires size { size_of kinds.now keys.now ≤ 2704 }
    ensures ok { OnOk result (out.new.items
        ≡ out.old.items ++ image_of_attributes kinds.now keys.now kept last child) }
    ensures err { OnErr result (take (length out.old.items) out.new.items ≡ out.old.items) }
{
    let front = RowPtr {
        block: child,
        offset: pivot_offset(kept, last),
    };
    let size = tuple_size(kinds, keys);
    let info = size as u16 + tail_size(last) + NO_ROW + marks(kinds, keys);
    put_tuple(out, front, info, size, kinds, keys)?;
    put_tail(out, last)
}

// How many attributes there are, marked where a row pointer is there too.
fn pivot_offset(kept: u16, last: Option<RowPtr>) -> u16
    requires { kept ≤ 32 }
    ensures { result ≡ pivot_offset kept last }
{
    match last {
        None => kept,
        Some(_) => kept + WITH_POINTER,
    }
}

fn tail_size(last: Option<RowPtr>) -> u16
    ensures { result ≡ tail_size last }
{
    match last {
        None => 0,
        Some(_) => TAIL,
    }
}

// Puts the row pointer at the end.
#[tactic(auto, unfolding(pg_bytes::specs::Places::zeros))]
fn put_tail(out: &mut Vec<u8>, last: Option<RowPtr>) -> Result<(), AllocError>
    ensures ok { OnOk result (out.new.items ≡ out.old.items ++ pivot_tail last) }
    ensures err { OnErr result (take (length out.old.items) out.new.items ≡ out.old.items) }
{
    let Some(last) = last else {
        return Ok(());
    };
    out.extend_from_slice(&[0, 0])?;
    last.append(out)
}
