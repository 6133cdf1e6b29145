ghost use Rattle.std.specs.Prelude.{◌≡◌, ◌+◌, ◌*◌, ◌%◌, ◌^◌, ◌<◌, ◌≤◌, ◌↔◌, ℕ, List, ◌++◌, All, IsTrue, IfOk, IfSome, MatchOption, Option, Some, None, length};
ghost use Rattle.pg_bytes.specs.Numbers.{number_at};
ghost use Rattle.pg_bytes.specs.Pointers.{row_pointer_at};
ghost use Rattle.pg_bytes.specs.declared.row_ptr.RowPtr.{RowPtr};
ghost use Rattle.opclass.specs.declared.value.KeyVal.{KeyVal};
ghost use Rattle.tuple_data.specs.Reading.{AreStored};
ghost use Rattle.btree_item.specs.Tuple.{size_of};
ghost use Rattle.btree_item.specs.Leaf.{plain_image, posting_image};
ghost use Rattle.btree_item.specs.Pivot.{image_of_attributes};
ghost use Rattle.btree_item.specs.Item.{IsBeforeFirst, IsPointer, IsTupleOf, IsTupleOfIndex, MayShare, PointersAscend};
ghost use Rattle.btree_item.specs.Pass.{BeginsWithPointers, pointers_in};
ghost use Rattle.btree_item.specs.declared.item.Item.{Item};
ghost use Rattle.btree_item.specs.declared.item.Item.TheVariants.{Pivot, Plain, Posting};

use crate::item::Item;
use crate::pivot_tuple::{WITH_POINTER, put_attributes};
use crate::plain_tuple::put_plain;
use crate::posting_tuple::{POINTER, POSTING, put_posting};
use crate::tuple::{HAS_VARIABLE, HEAD, NO_ROW, T_INFO, tuple_size};
use crate::tuple_reading::read_values;
use opclass::{ColType, KeyVal, Kinds};
use pg_bytes::{RowPtr, RowPtrs, al8, u16_at};
use std::alloc::{AllocError, Global};

// The most bytes of a row's tuple (`BTMaxItemSize` of `nbtree.h`), and of a pivot, which may have a
// row pointer behind as much.
const ROW_MOST: u64 = 2704;

const PIVOT_MOST: usize = 2712;

/// What the one tuple says that has these bytes, in a B-tree over columns of these types, at most
/// 32, of which the first are keys and the others INCLUDE columns (`BTreeTupleIsPosting`,
/// `BTreeTupleIsPivot` and their kin of `nbtree.h`). None comes exactly where there is no such
/// tuple. An error means that no memory was left.
pub fn read_item(
    alloc: Global,
    kinds: &Kinds,
    key_count: u16,
    bytes: &[u8],
) -> Result<Option<Item>, AllocError>
    requires few { length kinds.now ≤ 32 }
    requires stored { AreStored kinds.now }
    requires some { 1 ≤ key_count }
    requires keys { key_count ≤ length kinds.now }
    ensures { IfOk result (λ answer. MatchOption answer
        ((item : Item) → IsTupleOfIndex kinds.now key_count bytes.now item → ⊥)
        (IsTupleOfIndex kinds.now key_count bytes.now)) }
{
    if bytes.len() < HEAD || bytes.len() > PIVOT_MOST {
        return Ok(None);
    }
    let kinds = kinds.as_slice();
    let keys = &kinds[..usize::from(key_count)];
    let front = RowPtr::at(bytes, 0);
    if u16_at(bytes, T_INFO) % HAS_VARIABLE < NO_ROW {
        read_plain(alloc, kinds, front, bytes)
    } else if front.offset < POSTING {
        read_any_pivot(alloc, keys, front, bytes)
    } else if keys.len() < kinds.len() {
        Ok(None)
    } else {
        read_posting(alloc, kinds, front.offset - POSTING, bytes)
    }
}

// What the pivot says that has this in front, with a row pointer or without.
fn read_any_pivot(
    alloc: Global,
    kinds: &[ColType],
    front: RowPtr,
    bytes: &[u8],
) -> Result<Option<Item>, AllocError>
    requires few { length kinds.now ≤ 32 }
    requires stored { AreStored kinds.now }
    requires head { 8 ≤ length bytes.now }
    requires size { length bytes.now ≤ 2712 }
    requires front { front ≡ row_pointer_at bytes.now 0 }
    requires mark { 0x2000 ≤ number_at 2 bytes.now 6 % 0x4000 }
    requires pivot { front.offset < 0x2000 }
    ensures { IfOk result (λ answer. MatchOption answer
        ((item : Item) → IsTupleOf kinds.now bytes.now item → ⊥)
        (IsTupleOf kinds.now bytes.now)) }
{
    if front.offset >= WITH_POINTER {
        read_pivot_with_pointer(alloc, kinds, front, bytes)
    } else {
        read_pivot(alloc, kinds, front, bytes)
    }
}

// What the tuple of a row says that has this pointer in front.
fn read_plain(
    alloc: Global,
    kinds: &[ColType],
    ptr: RowPtr,
    bytes: &[u8],
) -> Result<Option<Item>, AllocError>
    requires few { length kinds.now ≤ 32 }
    requires stored { AreStored kinds.now }
    requires head { 8 ≤ length bytes.now }
    requires size { length bytes.now ≤ 2712 }
    ensures { IfOk result (λ answer. MatchOption answer
        ((keys : List KeyVal) → IsTupleOf kinds.now bytes.now (Plain keys ptr) → ⊥)
        (IsTupleOf kinds.now bytes.now)) }
{
    let Some(keys) = read_values(alloc, kinds, bytes)? else {
        return Ok(None);
    };
    if is_plain(alloc, kinds, keys.as_slice(), ptr, bytes)? {
        Ok(Some(Item::Plain { keys, ptr }))
    } else {
        Ok(None)
    }
}

// Whether bytes are the tuple of a row.
fn is_plain(
    alloc: Global,
    kinds: &[ColType],
    keys: &[KeyVal],
    ptr: RowPtr,
    bytes: &[u8],
) -> Result<bool, AllocError>
    requires few { length keys.now ≤ 32 }
    requires small { size_of kinds.now keys.now < 2 ^ 13 }
    ensures { IfOk result (λ answer. IsTrue answer
        ↔ (size_of kinds.now keys.now ≤ 2704)
        × (bytes.now ≡ plain_image kinds.now keys.now ptr)) }
{
    let size = tuple_size(kinds, keys);
    if size > ROW_MOST {
        return Ok(false);
    }
    let mut tuple = Vec::new(alloc);
    put_plain(&mut tuple, kinds, keys, size, ptr)?;
    Ok(tuple.as_slice() == bytes)
}

// What the tuple of so many rows says.
fn read_posting(
    alloc: Global,
    kinds: &[ColType],
    count: u16,
    bytes: &[u8],
) -> Result<Option<Item>, AllocError>
    requires few { length kinds.now ≤ 32 }
    requires stored { AreStored kinds.now }
    requires head { 8 ≤ length bytes.now }
    requires size { length bytes.now ≤ 2712 }
    ensures { IfOk result (λ answer. MatchOption answer
        ((keys : List KeyVal) (ptrs : List RowPtr) → length ptrs ≡ count
        → IsTupleOf kinds.now bytes.now (Posting keys ptrs) → ⊥)
        (IsTupleOf kinds.now bytes.now)) }
{
    let Some(keys) = read_values(alloc, kinds, bytes)? else {
        return Ok(None);
    };
    let Some(ptrs) = pointers_behind(alloc, kinds, keys.as_slice(), count, bytes)? else {
        return Ok(None);
    };
    if is_posting(alloc, kinds, keys.as_slice(), ptrs.as_slice(), bytes)? {
        Ok(Some(Item::Posting { keys, ptrs }))
    } else {
        Ok(None)
    }
}

// So many row pointers behind the tuple of keys. None comes only where there are fewer.
fn pointers_behind(
    alloc: Global,
    kinds: &[ColType],
    keys: &[KeyVal],
    count: u16,
    bytes: &[u8],
) -> Result<Option<RowPtrs>, AllocError>
    requires small { size_of kinds.now keys.now < 2 ^ 13 }
    requires size { length bytes.now ≤ 2712 }
    ensures few { IfOk result (λ answer. IfSome answer (λ ptrs. length ptrs ≤ 452)) }
    ensures fit { IfOk result (λ answer. IfSome answer (All IsPointer)) }
    ensures only { IfOk result (λ answer. (ptrs : List RowPtr) → length ptrs ≡ count
        → IsTupleOf kinds.now bytes.now (Posting keys.now ptrs) → answer ≡ Some ptrs) }
{
    match bytes.get(tuple_size(kinds, keys) as usize..) {
        Some(behind) => read_pointers(alloc, usize::from(count), behind),
        None => Ok(None),
    }
}

// So many row pointers that bytes begin with. None comes only where there are fewer.
fn read_pointers(alloc: Global, count: usize, bytes: &[u8]) -> Result<Option<RowPtrs>, AllocError>
    requires count { count < 2 ^ 16 }
    requires size { length bytes.now ≤ 2712 }
    ensures few { IfOk result (λ answer. IfSome answer (λ ptrs. length ptrs ≤ 452)) }
    ensures fit { IfOk result (λ answer. IfSome answer (All IsPointer)) }
    ensures only { IfOk result (λ answer. (ptrs : List RowPtr) → length ptrs ≡ count
        → BeginsWithPointers bytes.now ptrs → answer ≡ Some ptrs) }
{
    if POINTER * count > bytes.len() {
        Ok(None)
    } else {
        Ok(Some(pointers_of(alloc, count, bytes)?))
    }
}

// So many row pointers from the front of bytes.
fn pointers_of(alloc: Global, count: usize, bytes: &[u8]) -> Result<RowPtrs, AllocError>
    requires { 6 * count ≤ length bytes.now }
    ensures are { IfOk result (λ ptrs. ptrs ≡ pointers_in count bytes.now) }
    ensures many { IfOk result (λ ptrs. length ptrs ≡ count) }
    ensures fit { IfOk result (All IsPointer) }
{
    let mut ptrs = Vec::new(alloc);
    let mut left = bytes;
    for _ in 0..count {
        ptrs.push(first_pointer(left))?;
        left = &left[POINTER..];
    }
    Ok(RowPtrs::from_vec(ptrs))
}

fn first_pointer(bytes: &[u8]) -> RowPtr
    requires { 6 ≤ length bytes.now }
    ensures is { result ≡ row_pointer_at bytes.now 0 }
    ensures fit { IsPointer result }
{
    RowPtr::at(bytes, 0)
}

// Whether bytes are the tuple of rows with these pointers.
fn is_posting(
    alloc: Global,
    kinds: &[ColType],
    keys: &[KeyVal],
    ptrs: &[RowPtr],
    bytes: &[u8],
) -> Result<bool, AllocError>
    requires columns { length keys.now ≤ 32 }
    requires small { size_of kinds.now keys.now < 2 ^ 13 }
    requires few { length ptrs.now ≤ 452 }
    ensures { IfOk result (λ answer. IsTrue answer
        ↔ MayShare kinds.now keys.now ptrs.now
        × (bytes.now ≡ posting_image kinds.now keys.now ptrs.now)) }
{
    if !may_share(kinds, keys, ptrs) {
        return Ok(false);
    }
    let mut tuple = Vec::new(alloc);
    put_posting(&mut tuple, kinds, keys, ptrs)?;
    Ok(tuple.as_slice() == bytes)
}

// Whether rows with these pointers may share a tuple.
fn may_share(kinds: &[ColType], keys: &[KeyVal], ptrs: &[RowPtr]) -> bool
    requires small { size_of kinds.now keys.now < 2 ^ 13 }
    requires few { length ptrs.now ≤ 452 }
    ensures { IsTrue result ↔ MayShare kinds.now keys.now ptrs.now }
{
    ptrs.len() >= 2
        && ascend(ptrs)
        && al8(tuple_size(kinds, keys) + (POINTER * ptrs.len()) as u64) <= ROW_MOST
}

// Whether row pointers ascend, and none is there twice.
fn ascend(mut ptrs: &[RowPtr]) -> bool
    ensures { IsTrue result ↔ PointersAscend ptrs.entry.now }
{
    while let [first, more @ ..] = ptrs {
        if !is_before_first(first, more) {
            return false;
        }
        ptrs = more;
    }
    true
}

fn is_before_first(ptr: &RowPtr, others: &[RowPtr]) -> bool
    ensures { IsTrue result ↔ IsBeforeFirst ptr.now others.now }
{
    match others {
        [] => true,
        [first, ..] => ptr.is_before(first),
    }
}

// What a pivot says that has no row pointer.
fn read_pivot(
    alloc: Global,
    kinds: &[ColType],
    front: RowPtr,
    bytes: &[u8],
) -> Result<Option<Item>, AllocError>
    requires few { length kinds.now ≤ 32 }
    requires stored { AreStored kinds.now }
    requires head { 8 ≤ length bytes.now }
    requires size { length bytes.now ≤ 2712 }
    ensures { IfOk result (λ answer. MatchOption answer
        ((keys : List KeyVal) → length keys ≡ front.offset
        → IsTupleOf kinds.now bytes.now (Pivot keys None front.block) → ⊥)
        (IsTupleOf kinds.now bytes.now)) }
{
    if usize::from(front.offset) > kinds.len() {
        return Ok(None);
    }
    read_kept(alloc, kinds, front.offset, None, front.block, bytes)
}

// What a pivot says that keeps all attributes and has a row pointer in its last bytes.
fn read_pivot_with_pointer(
    alloc: Global,
    kinds: &[ColType],
    front: RowPtr,
    bytes: &[u8],
) -> Result<Option<Item>, AllocError>
    requires few { length kinds.now ≤ 32 }
    requires stored { AreStored kinds.now }
    requires head { 8 ≤ length bytes.now }
    requires size { length bytes.now ≤ 2712 }
    requires mark { 0x1000 ≤ front.offset }
    ensures { IfOk result (λ answer. MatchOption answer
        ((keys : List KeyVal) (last : RowPtr) → length keys + 0x1000 ≡ front.offset
        → IsTupleOf kinds.now bytes.now (Pivot keys (Some last) front.block) → ⊥)
        (IsTupleOf kinds.now bytes.now)) }
{
    let kept = front.offset - WITH_POINTER;
    if usize::from(kept) != kinds.len() {
        return Ok(None);
    }
    let last = first_pointer(&bytes[bytes.len() - POINTER..]);
    read_kept(alloc, kinds, kept, Some(last), front.block, bytes)
}

// What a pivot says that keeps so many attributes and has this row pointer and child.
fn read_kept(
    alloc: Global,
    kinds: &[ColType],
    kept: u16,
    last: Option<RowPtr>,
    child: u32,
    bytes: &[u8],
) -> Result<Option<Item>, AllocError>
    requires few { length kinds.now ≤ 32 }
    requires stored { AreStored kinds.now }
    requires head { 8 ≤ length bytes.now }
    requires size { length bytes.now ≤ 2712 }
    requires kept { kept ≤ length kinds.now }
    requires whole { IfSome last (λ last. (kept ≡ length kinds.now) × IsPointer last) }
    ensures { IfOk result (λ answer. MatchOption answer
        ((keys : List KeyVal) → length keys ≡ kept
        → IsTupleOf kinds.now bytes.now (Pivot keys last child) → ⊥)
        (IsTupleOf kinds.now bytes.now)) }
{
    let first = &kinds[..usize::from(kept)];
    let Some(keys) = read_values(alloc, first, bytes)? else {
        return Ok(None);
    };
    if is_pivot(alloc, first, keys.as_slice(), kept, last, child, bytes)? {
        Ok(Some(Item::Pivot { keys, last, child }))
    } else {
        Ok(None)
    }
}

// Whether bytes are the pivot of these attributes.
fn is_pivot(
    alloc: Global,
    kinds: &[ColType],
    keys: &[KeyVal],
    kept: u16,
    last: Option<RowPtr>,
    child: u32,
    bytes: &[u8],
) -> Result<bool, AllocError>
    requires few { length keys.now ≤ 32 }
    requires kept { kept ≤ 32 }
    requires small { size_of kinds.now keys.now < 2 ^ 13 }
    ensures { IfOk result (λ answer. IsTrue answer
        ↔ (size_of kinds.now keys.now ≤ 2704)
        × (bytes.now ≡ image_of_attributes kinds.now keys.now kept last child)) }
{
    if tuple_size(kinds, keys) > ROW_MOST {
        return Ok(false);
    }
    let mut tuple = Vec::new(alloc);
    put_attributes(&mut tuple, kinds, keys, kept, last, child)?;
    Ok(tuple.as_slice() == bytes)
}
