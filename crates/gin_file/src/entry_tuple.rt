ghost use Rattle.std.specs.Prelude.{◌≡◌, ◌+◌, ◌-◌, ◌*◌, ◌^◌, ◌<◌, ◌≤◌, List, [], ◌∷◌, ◌++◌, OnOk, if◌then◌else◌, length};
ghost use Rattle.opclass.specs.Types.{facts_of};
ghost use Rattle.pg_bytes.specs.Numbers.{number_bytes, rounded_up};
ghost use Rattle.pg_bytes.specs.declared.row_ptr.RowPtr.{RowPtr};
ghost use Rattle.pg_bytes.specs.Places.{zeros};
ghost use Rattle.pg_bytes.specs.Pointers.{row_pointer_bytes};
ghost use Rattle.tuple_data.specs.Data.{data_of};
ghost use Rattle.btree_item.specs.Tuple.{bitmap_of, index_tuple, info_of};
ghost use Rattle.gin_entry.specs.EntrySize.{entry_size, key_kinds, list_place};
ghost use Rattle.gin_file.specs.EntryTuple.{category_byte, key_part, leading_tuple, list_tuple};
ghost use Rattle.posting_tree.specs.Segments.{segment};
ghost use Rattle.gin_file.specs.Entry.{IsEntry};

use byteorder::{ByteOrder, LittleEndian};
use gin_entry::{Category, Entry, entry_size};
use opclass::{ColType, Form};
use pg_bytes::{RowPtr, al8};
use std::alloc::AllocError;
use std::slice;
use tuple_data::{has_null, has_variable, put_data};

/// The most bytes of an entry's tuple (`GinMaxItemSize` of `ginblock.h`).
pub const MOST_SIZE: usize = 2712;

// The bytes of an index tuple's head, and where `t_info` stands in it.
pub(crate) const HEAD: usize = 8;

pub(crate) const T_INFO: usize = 6;

// The marks of `t_info` (`itup.h`): some column of variable width has a value, some value is null.
const HAS_VARIABLE: u16 = 0x4000;

pub(crate) const HAS_NULL: u16 = 0x8000;

// A null bitmap, where the one column is null, and the zeros behind it.
const NULL_BITMAP: [u8; 8] = [0; 8];

// Where the posting list of a placeholder begins: behind the tuple of a null, its category and a
// zero (`GinCategoryOffset`).
const PLACEHOLDER_END: usize = 18;

// The mark of a tuple with its posting list, in the place of a block (`GIN_ITUP_COMPRESSED`).
const LIST_MARK: u32 = 1 << 31;

/// Puts the tuple of an entry with its posting list, which is one segment of so many pointers,
/// behind the bytes of a buffer (`GinFormTuple` of `ginentrypage.c`). An error means that no memory
/// was left, and leaves a part.
pub fn put_list_tuple(
    out: &mut Vec<u8>,
    kind: ColType,
    entry: &Entry,
    list: &[u8],
    count: u16,
) -> Result<(), AllocError>
    requires entry { IsEntry entry.now }
    requires small { entry_size kind entry.now ≤ 2712 }
    requires size { rounded_up 8 (list_place kind entry.now + length list.now) ≤ 2712 }
    ensures { OnOk result ((pointers : List RowPtr)
        → list.now ≡ segment pointers → count ≡ length pointers
        → out.new.items ≡ out.old.items ++ list_tuple kind entry.now pointers) }
{
    let place = list_place(kind, entry);
    let size = al8((place + list.len()) as u64) as usize;
    let front = RowPtr {
        block: place as u32 + LIST_MARK,
        offset: count,
    };
    let end = out.len() + size;
    put_key_part(out, kind, entry, front, size as u16)?;
    out.extend_from_slice(list)?;
    fill_up(out, end)?;
    Ok(())
}

/// Puts the tuple of an entry that leads to a block, behind the bytes of a buffer: to the root of
/// its posting tree, or above the leaves to a page (`GinFormInteriorTuple`). `t_info` has 13 bits
/// for its size. An error means that no memory was left, and leaves a part.
pub fn put_leading_tuple(
    out: &mut Vec<u8>,
    kind: ColType,
    entry: &Entry,
    front: RowPtr,
) -> Result<(), AllocError>
    requires entry { IsEntry entry.now }
    requires small { entry_size kind entry.now < 2 ^ 13 }
    ensures { OnOk result (out.new.items ≡ out.old.items ++ leading_tuple kind entry.now front) }
{
    let end = out.len() + entry_size(kind, entry) as usize;
    put_key_part(out, kind, entry, front, entry_size(kind, entry) as u16)?;
    fill_up(out, end)?;
    Ok(())
}

/// Where the posting list of an entry begins in its tuple.
pub fn list_place(kind: ColType, entry: &Entry) -> usize
    requires entry { IsEntry entry.now }
    requires small { entry_size kind entry.now < 2 ^ 13 }
    ensures { result ≡ list_place kind entry.now }
{
    if entry.category == Category::Key.number() {
        entry_size(kind, entry) as usize
    } else {
        PLACEHOLDER_END
    }
}

// Puts what an entry is in a tuple of this size, up to the place of a posting list.
fn put_key_part(
    out: &mut Vec<u8>,
    kind: ColType,
    entry: &Entry,
    front: RowPtr,
    size: u16,
) -> Result<(), AllocError>
    requires entry { IsEntry entry.now }
    requires small { entry_size kind entry.now < 2 ^ 13 }
    requires size { size < 2 ^ 13 }
    ensures { OnOk result (out.new.items ≡ out.old.items ++ key_part kind entry.now front size) }
{
    put_index_tuple(out, kind, entry, front, size)?;
    put_category(out, entry)?;
    Ok(())
}

// Puts the category of a placeholder, and a zero up to the place of its posting list.
fn put_category(out: &mut Vec<u8>, entry: &Entry) -> Result<(), AllocError>
    ensures { OnOk result (out.new.items
        ≡ out.old.items ++ (category_byte entry.now ++ zeros (length (category_byte entry.now)))) }
{
    if entry.category == Category::Key.number() {
        return Ok(());
    }
    out.extend_from_slice(&[entry.category, 0])?;
    Ok(())
}

// Puts the index tuple of an entry's key, which says of itself that it has a size.
fn put_index_tuple(
    out: &mut Vec<u8>,
    kind: ColType,
    entry: &Entry,
    front: RowPtr,
    size: u16,
) -> Result<(), AllocError>
    requires entry { IsEntry entry.now }
    requires small { entry_size kind entry.now < 2 ^ 13 }
    requires size { size < 2 ^ 13 }
    ensures { OnOk result (out.new.items
        ≡ out.old.items ++ index_tuple front
        (info_of size (key_kinds (facts_of kind).form) (entry.now.key ∷ []))
        (key_kinds (facts_of kind).form) (entry.now.key ∷ [])) }
{
    let start = out.len();
    put_head(out, front, size + marks(kind, entry))?;
    put_bitmap(out, entry)?;
    put_key(out, kind, entry)?;
    let end = start + al8((out.len() - start) as u64) as usize;
    fill_up(out, end)?;
    Ok(())
}

// Puts the null bitmap of a key that is null.
fn put_bitmap(out: &mut Vec<u8>, entry: &Entry) -> Result<(), AllocError>
    ensures { OnOk result (out.new.items ≡ out.old.items ++ bitmap_of (entry.now.key ∷ [])) }
{
    if !has_null(slice::from_ref(&entry.key)) {
        return Ok(());
    }
    out.extend_from_slice(&NULL_BITMAP)?;
    Ok(())
}

// Puts the data of an entry's key.
fn put_key(out: &mut Vec<u8>, kind: ColType, entry: &Entry) -> Result<(), AllocError>
    requires entry { IsEntry entry.now }
    requires small { entry_size kind entry.now < 2 ^ 13 }
    ensures { OnOk result (out.new.items
        ≡ out.old.items ++ data_of (key_kinds (facts_of kind).form) (entry.now.key ∷ [])) }
{
    match kind.facts().form {
        Form::Array(element) => put_data(out, &[element], slice::from_ref(&entry.key)),
        _ => Ok(()),
    }
}

// What `t_info` says of an entry's key.
fn marks(kind: ColType, entry: &Entry) -> u16
    ensures { result
        ≡ info_of 0 (key_kinds (facts_of kind).form) (entry.now.key ∷ []) }
{
    let key = slice::from_ref(&entry.key);
    let variable = match kind.facts().form {
        Form::Array(element) => has_variable(&[element], key),
        _ => false,
    };
    mark(variable, HAS_VARIABLE) + mark(has_null(key), HAS_NULL)
}

// A mark where it is to be set.
fn mark(set: bool, mark: u16) -> u16
    ensures { result ≡ (if set then mark else 0) }
{
    if set { mark } else { 0 }
}

// Puts what stands in the place of a row pointer, and `t_info`.
#[tactic(auto, unfolding(pg_bytes::specs::Numbers::number_bytes, pg_bytes::specs::Places::written, pg_bytes::specs::Pointers::row_pointer_bytes))]
fn put_head(out: &mut Vec<u8>, front: RowPtr, info: u16) -> Result<(), AllocError>
    ensures { OnOk result (out.new.items
        ≡ out.old.items ++ (row_pointer_bytes front ++ number_bytes 2 info)) }
{
    let mut head = [0u8; HEAD];
    front.put(&mut head, 0);
    LittleEndian::write_u16(&mut head[T_INFO..], info);
    out.extend_from_slice(&head)
}

// Puts zeros up to an end.
#[tactic(auto, unfolding(pg_bytes::specs::Places::zeros))]
fn fill_up(out: &mut Vec<u8>, end: usize) -> Result<(), AllocError>
    requires { length out.old.items ≤ end }
    ensures { OnOk result
        (out.new.items ≡ out.old.items ++ zeros (end - length out.old.items)) }
{
    out.resize(end, 0)
}
