ghost use Rattle.std.specs.Prelude.{◌≡◌, ◌+◌, ◌^◌, ◌<◌, ◌≤◌, ◌↔◌, ℕ, List, [], ◌∷◌, IsTrue, IfOk, IfSome, MatchOption, Some, true, false, length, drop};
ghost use Rattle.pg_bytes.specs.declared.row_ptr.RowPtr.{RowPtr};
ghost use Rattle.gin_entry.specs.declared.entry.Entry.{Entry};
ghost use Rattle.gin_entry.specs.EntrySize.{entry_size};
ghost use Rattle.posting_tree.specs.Segments.{AreAscending, HaveBlocks};
ghost use Rattle.gin_file.specs.Entry.{IsEntryOf};
ghost use Rattle.gin_file.specs.EntryTuple.{leading_tuple, list_tuple};
ghost use Rattle.gin_file.specs.Item.{IsListIn, IsTupleOf};
ghost use Rattle.gin_file.specs.Pass.{BeginsWithEntry, BeginsWithKey, BeginsWithSegment};
ghost use Rattle.gin_file.specs.declared.entry_reading.EntryItem.{EntryItem};
ghost use Rattle.gin_file.specs.declared.entry_reading.EntryItem.TheVariants.{Inner, List as ListItem, Tree};
ghost use Rattle.opclass.specs.Types.{facts_of};
ghost use Rattle.tuple_data.specs.Reading.{BeginsWithData, IsStored};
ghost use Rattle.opclass.specs.declared.value.KeyVal.{KeyVal};

use crate::entry_tuple::{
    HAS_NULL, HEAD, MOST_SIZE, T_INFO, list_place, put_leading_tuple, put_list_tuple,
};
use gin_entry::{Category, Entry, entry_size};
use opclass::{ColType, Form, KeyVal};
use pg_bytes::{RowPtr, RowPtrs, u16_at};
use posting_tree::{decode, encode};
use std::alloc::{AllocError, Global};
use tuple_data::read_data;

// Where the category of a placeholder stands, behind the tuple of a null (`GinCategoryOffset`).
const CATEGORY: usize = 16;

// The bytes of a segment in front of its deltas, and where their count stands among them.
const SEGMENT_HEAD: usize = 8;

const DELTA_COUNT: usize = 6;

// In the place of a count: the list stands in a posting tree (`GIN_TREE_POSTING`).
const TREE: u16 = 0xFFFF;

// The most bytes that `t_info` tells of (`INDEX_SIZE_MASK`).
const SIZE_MOST: usize = 0x1FFF;

/// What a tuple of the entry tree says.
#[derive(Debug, Drop)]
pub enum EntryItem {
    /// On a leaf, an entry with its posting list.
    List { entry: Entry, ptrs: RowPtrs },
    /// On a leaf, an entry with the root of the posting tree that has its list.
    Tree { entry: Entry, root: u32 },
    /// Above the leaves, the greatest entry of a page, and that page.
    Inner { entry: Entry, child: u32 },
}

/// What the one tuple says that has these bytes, on a leaf or above, in the entry tree over a
/// column of this type (`gintuple_get_key` and `ginReadTuple` of `ginentrypage.c`). None comes
/// exactly where there is no such tuple. An error means that no memory was left.
pub fn read_entry(
    alloc: Global,
    kind: ColType,
    leaf: bool,
    bytes: &[u8],
) -> Result<Option<EntryItem>, AllocError>
    ensures { IfOk result (λ answer. MatchOption answer
        ((item : EntryItem) → IsTupleOf kind leaf bytes.now item → ⊥)
        (IsTupleOf kind leaf bytes.now)) }
{
    if bytes.len() > SIZE_MOST {
        return Ok(None);
    }
    let Some(entry) = read_key(alloc, kind, bytes)? else {
        return Ok(None);
    };
    let front = RowPtr::at(bytes, 0);
    if !leaf {
        read_inner(alloc, kind, entry, front.block, bytes)
    } else if front.offset == TREE {
        read_tree(alloc, kind, entry, front.block, bytes)
    } else {
        read_list(alloc, kind, entry, bytes)
    }
}

// The entry with which bytes begin. None comes only where there is none.
fn read_key(alloc: Global, kind: ColType, bytes: &[u8]) -> Result<Option<Entry>, AllocError>
    requires { length bytes.now < 2 ^ 13 }
    ensures long { IfOk result (λ answer. IfSome answer (λ entry. 8 ≤ length bytes.now)) }
    ensures typed { IfOk result (λ answer. IfSome answer (IsEntryOf kind)) }
    ensures small { IfOk result (λ answer. IfSome answer (λ entry.
        entry_size kind entry < 2 ^ 14)) }
    ensures only { IfOk result (λ answer.
        (entry : Entry) → BeginsWithEntry kind bytes.now entry → answer ≡ Some entry) }
{
    if bytes.len() < HEAD {
        return Ok(None);
    }
    if u16_at(bytes, T_INFO) < HAS_NULL {
        read_key_value(alloc, kind, &bytes[HEAD..])
    } else {
        Ok(read_placeholder(kind, bytes))
    }
}

// The entry of the key whose data bytes begin with. None comes only where there is none.
fn read_key_value(alloc: Global, kind: ColType, bytes: &[u8]) -> Result<Option<Entry>, AllocError>
    requires { length bytes.now < 2 ^ 13 }
    ensures typed { IfOk result (λ answer. IfSome answer (IsEntryOf kind)) }
    ensures small { IfOk result (λ answer. IfSome answer (λ entry.
        entry_size kind entry < 2 ^ 14)) }
    ensures only { IfOk result (λ answer.
        (entry : Entry) → BeginsWithKey kind bytes.now entry → answer ≡ Some entry) }
{
    let Form::Array(element) = kind.facts().form else {
        return Ok(None);
    };
    let Some(key) = read_value(alloc, element, bytes)? else {
        return Ok(None);
    };
    Ok(Some(Entry {
        category: Category::Key.number(),
        key,
    }))
}

// The one value whose data bytes begin with. None comes only where there is none.
fn read_value(alloc: Global, kind: ColType, bytes: &[u8]) -> Result<Option<KeyVal>, AllocError>
    requires stored { IsStored (facts_of kind).form }
    requires few { length bytes.now < 2 ^ 13 }
    ensures found { IfOk result (λ answer. IfSome answer (λ value.
        BeginsWithData (kind ∷ []) 1 bytes.now (value ∷ []))) }
    ensures only { IfOk result (λ answer.
        (value : KeyVal) → BeginsWithData (kind ∷ []) 1 bytes.now (value ∷ [])
        → answer ≡ Some value) }
{
    match read_data(alloc, &[kind], 1, bytes)? {
        Some(mut values) => Ok(values.pop()),
        None => Ok(None),
    }
}

// The entry without a key that bytes have behind the tuple of a null. None comes only where there
// is none.
fn read_placeholder(kind: ColType, bytes: &[u8]) -> Option<Entry>
    ensures typed { IfSome result (IsEntryOf kind) }
    ensures small { IfSome result (λ entry. entry_size kind entry ≤ 24) }
    ensures only { (entry : Entry) (rest : List ℕ)
        → IsEntryOf kind entry → 1 ≤ entry.category → drop 16 bytes.now ≡ entry.category ∷ rest
        → result ≡ Some entry }
{
    let Form::Array(_) = kind.facts().form else {
        return None;
    };
    match Category::of(*bytes.get(CATEGORY)?)? {
        Category::Key => None,
        category => Some(Entry::placeholder(category)),
    }
}

// What a tuple above the leaves says that begins with an entry.
fn read_inner(
    alloc: Global,
    kind: ColType,
    entry: Entry,
    child: u32,
    bytes: &[u8],
) -> Result<Option<EntryItem>, AllocError>
    requires entry { IsEntryOf kind entry }
    requires small { entry_size kind entry < 2 ^ 14 }
    ensures { IfOk result (λ answer. MatchOption answer
        (IsTupleOf kind false bytes.now (Inner entry child) → ⊥)
        (λ item. (item ≡ Inner entry child) × IsTupleOf kind false bytes.now item)) }
{
    let front = RowPtr {
        block: child,
        offset: 0,
    };
    if has_leading_tuple(alloc, kind, &entry, front, bytes)? {
        Ok(Some(EntryItem::Inner { entry, child }))
    } else {
        Ok(None)
    }
}

// What a leaf's tuple says that begins with an entry and leads to a posting tree.
fn read_tree(
    alloc: Global,
    kind: ColType,
    entry: Entry,
    root: u32,
    bytes: &[u8],
) -> Result<Option<EntryItem>, AllocError>
    requires entry { IsEntryOf kind entry }
    requires small { entry_size kind entry < 2 ^ 14 }
    ensures { IfOk result (λ answer. MatchOption answer
        (IsTupleOf kind true bytes.now (Tree entry root) → ⊥)
        (λ item. (item ≡ Tree entry root) × IsTupleOf kind true bytes.now item)) }
{
    let front = RowPtr {
        block: root,
        offset: TREE,
    };
    if has_leading_tuple(alloc, kind, &entry, front, bytes)? {
        Ok(Some(EntryItem::Tree { entry, root }))
    } else {
        Ok(None)
    }
}

// Whether bytes are the tuple of an entry that leads to a block.
fn has_leading_tuple(
    alloc: Global,
    kind: ColType,
    entry: &Entry,
    front: RowPtr,
    bytes: &[u8],
) -> Result<bool, AllocError>
    requires entry { IsEntryOf kind entry.now }
    requires small { entry_size kind entry.now < 2 ^ 14 }
    ensures { IfOk result (λ answer. IsTrue answer
        ↔ (entry_size kind entry.now < 2 ^ 13)
        × (bytes.now ≡ leading_tuple kind entry.now front)) }
{
    if entry_size(kind, entry) > SIZE_MOST as u64 {
        return Ok(false);
    }
    let mut tuple = Vec::new(alloc);
    put_leading_tuple(&mut tuple, kind, entry, front)?;
    Ok(tuple.as_slice() == bytes)
}

// What a leaf's tuple says that begins with an entry and has its posting list.
fn read_list(
    alloc: Global,
    kind: ColType,
    entry: Entry,
    bytes: &[u8],
) -> Result<Option<EntryItem>, AllocError>
    requires entry { IsEntryOf kind entry }
    requires small { entry_size kind entry < 2 ^ 14 }
    ensures { IfOk result (λ answer. MatchOption answer
        ((pointers : List RowPtr) → IsTupleOf kind true bytes.now (ListItem entry pointers) → ⊥)
        (IsTupleOf kind true bytes.now)) }
{
    let Some(ptrs) = read_pointers(alloc, kind, &entry, bytes)? else {
        return Ok(None);
    };
    if has_list_tuple(alloc, kind, &entry, ptrs.as_slice(), bytes)? {
        Ok(Some(EntryItem::List { entry, ptrs }))
    } else {
        Ok(None)
    }
}

// The pointers of the segment behind an entry. None comes only where there is none.
fn read_pointers(
    alloc: Global,
    kind: ColType,
    entry: &Entry,
    bytes: &[u8],
) -> Result<Option<RowPtrs>, AllocError>
    requires entry { IsEntryOf kind entry.now }
    requires small { entry_size kind entry.now < 2 ^ 14 }
    ensures small { IfOk result (λ answer. IfSome answer (λ pointers.
        entry_size kind entry.now ≤ 2712)) }
    ensures some { IfOk result (λ answer. IfSome answer (λ pointers. 0 < length pointers)) }
    ensures ascending { IfOk result (λ answer. IfSome answer AreAscending) }
    ensures blocks { IfOk result (λ answer. IfSome answer HaveBlocks) }
    ensures only { IfOk result (λ answer.
        (pointers : List RowPtr) → IsTupleOf kind true bytes.now (ListItem entry.now pointers)
        → answer ≡ Some pointers) }
{
    if entry_size(kind, entry) > MOST_SIZE as u64 {
        return Ok(None);
    }
    match bytes.get(list_place(kind, entry)..) {
        Some(list) => read_segment(alloc, list),
        None => Ok(None),
    }
}

// The pointers of the segment that bytes begin with. None comes only where there is none.
fn read_segment(alloc: Global, bytes: &[u8]) -> Result<Option<RowPtrs>, AllocError>
    ensures some { IfOk result (λ answer. IfSome answer (λ pointers. 0 < length pointers)) }
    ensures ascending { IfOk result (λ answer. IfSome answer AreAscending) }
    ensures blocks { IfOk result (λ answer. IfSome answer HaveBlocks) }
    ensures only { IfOk result (λ answer.
        (pointers : List RowPtr) → BeginsWithSegment bytes.now pointers
        → answer ≡ Some pointers) }
{
    if bytes.len() < SEGMENT_HEAD {
        return Ok(None);
    }
    let count = usize::from(u16_at(bytes, DELTA_COUNT));
    match bytes.get(..SEGMENT_HEAD + count + count % 2) {
        Some(segment) => decode(alloc, segment),
        None => Ok(None),
    }
}

// Whether bytes are the tuple of an entry with its posting list.
fn has_list_tuple(
    alloc: Global,
    kind: ColType,
    entry: &Entry,
    ptrs: &[RowPtr],
    bytes: &[u8],
) -> Result<bool, AllocError>
    requires entry { IsEntryOf kind entry.now }
    requires small { entry_size kind entry.now ≤ 2712 }
    requires some { 0 < length ptrs.now }
    requires ascending { AreAscending ptrs.now }
    requires blocks { HaveBlocks ptrs.now }
    ensures { IfOk result (λ answer. IsTrue answer
        ↔ IsListIn kind entry.now ptrs.now × (bytes.now ≡ list_tuple kind entry.now ptrs.now)) }
{
    if ptrs.len() > MOST_SIZE {
        return Ok(false);
    }
    let list = encode(alloc, ptrs)?;
    if list_place(kind, entry) + list.len() > MOST_SIZE {
        return Ok(false);
    }
    let mut tuple = Vec::new(alloc);
    put_list_tuple(&mut tuple, kind, entry, list.as_slice(), ptrs.len() as u16)?;
    Ok(tuple.as_slice() == bytes)
}
