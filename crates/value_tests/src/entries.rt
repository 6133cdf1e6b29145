ghost use Rattle.std.specs.Prelude.{◌≡◌, ◌^◌, ◌≤◌};
ghost use Rattle.tuple_data.specs.Laws.{room_of};

use gin_entry::{Category, Entry, EntryList, distinct_elements, entries_of, entry_size};
use opclass::{ColType, Elem, ElemList, KeyVal};
use pg_bytes::{Bytes, Items};
use std::alloc::{AllocError, Global};
use std::process::Abort;
use std::test::Fail;

// An element of an array, or the key of an entry.
#[derive(Clone, Copy)]
enum Given {
    Null,
    Num(i64),
    Text(&'static [u8]),
}

use Given::{Null, Num, Text};

fn bytes(alloc: Global, text: &[u8]) -> Result<Bytes, AllocError> {
    Ok(Items::from_vec(text.to_vec(alloc)?))
}

fn element(alloc: Global, given: Given) -> Result<Elem, AllocError> {
    match given {
        Null => Ok(Elem::Null),
        Num(number) => Ok(Elem::Num(number)),
        Text(text) => Ok(Elem::Raw(bytes(alloc, text)?)),
    }
}

fn elements(alloc: Global, given: &[Given]) -> Result<ElemList, AllocError> {
    let mut list = Vec::new(alloc);
    for each in given {
        list.push(element(alloc, *each)?)?;
    }
    Ok(Items::from_vec(list))
}

fn is_key(key: &KeyVal, wanted: Given) -> bool {
    match (key, wanted) {
        (KeyVal::Nil, Null) => true,
        (KeyVal::Num(number), Num(other)) => *number == other,
        (KeyVal::Raw(bytes), Text(text)) => bytes.as_slice() == text,
        _ => false,
    }
}

fn assert_entries(rt: &impl Abort, entries: &EntryList, wanted: &[(u8, Given)]) {
    assert!(rt; entries.len() == wanted.len());
    for (entry, (category, key)) in entries.as_slice().iter().zip(wanted) {
        assert!(rt; entry.category == *category);
        assert!(rt; is_key(&entry.key, *key));
    }
}

// Arrays and their entries, by category and key.
static ARRAYS: [(&[Given], &[(u8, Given)]); 8] = [
    (&[Num(5), Num(5), Num(1)], &[(0, Num(1)), (0, Num(5))]),
    (&[], &[(2, Null)]),
    (&[Null, Num(1)], &[(0, Num(1)), (1, Null)]),
    (&[Null, Null], &[(1, Null)]),
    (
        &[Num(0), Null, Num(-1), Null],
        &[(0, Num(-1)), (0, Num(0)), (1, Null)],
    ),
    (
        &[Num(i64::MAX), Num(i64::MIN), Num(i64::MAX)],
        &[(0, Num(i64::MIN)), (0, Num(i64::MAX))],
    ),
    (
        &[Text(b"b"), Text(b"ba"), Text(b""), Text(b"b"), Text(b"ab")],
        &[
            (0, Text(b"")),
            (0, Text(b"ab")),
            (0, Text(b"b")),
            (0, Text(b"ba")),
        ],
    ),
    (
        &[Null, Text(&[0x80]), Text(&[0x7F, 0xFF])],
        &[(0, Text(&[0x7F, 0xFF])), (0, Text(&[0x80])), (1, Null)],
    ),
];

fn assert_arrays(
    rt: &impl Abort,
    alloc: Global,
    arrays: &[(&[Given], &[(u8, Given)])],
) -> Result<(), Fail> {
    for (given, wanted) in arrays {
        let value = KeyVal::Items(elements(alloc, given)?);
        assert_entries(rt, &entries_of(alloc, &value)?, wanted);
    }
    Ok(())
}

#[test]
fn arrays_have_their_elements_once_and_ascending(rt: HostRuntime) -> Result<(), Fail> {
    assert_arrays(&rt, rt.alloc(), &ARRAYS)
}

#[test]
fn a_null_has_an_entry_of_its_own(rt: HostRuntime) -> Result<(), Fail> {
    assert_entries(&rt, &entries_of(rt.alloc(), &KeyVal::Nil)?, &[(3, Null)]);
    Ok(())
}

#[test]
fn distinct_elements_are_not_copied(rt: HostRuntime) -> Result<(), Fail> {
    let alloc = rt.alloc();
    let given = elements(alloc, &[Num(7), Null, Num(-7), Num(7)])?;
    let distinct = distinct_elements(alloc, given.as_slice())?;
    assert!(&rt; distinct.len() == 3);
    assert!(&rt; matches!(distinct[0], Elem::Num(-7)));
    assert!(&rt; matches!(distinct[1], Elem::Num(7)));
    assert!(&rt; matches!(distinct[2], Elem::Null));
    Ok(())
}

#[tactic(auto, using(gin_entry::proofs::Room::entry_room))]
fn assert_size(rt: &impl Abort, kind: ColType, entry: Entry, size: u64)
    requires { room_of entry.key ≤ 2 ^ 20 }
{
    assert!(rt; entry_size(kind, &entry) == size);
}

fn of_key(key: KeyVal) -> Entry
    ensures { result.key ≡ key }
{
    Entry {
        category: Category::Key.number(),
        key,
    }
}

#[test]
fn numbers_are_measured_by_their_type(rt: HostRuntime) {
    assert_size(&rt, ColType::Int4Array, of_key(KeyVal::Num(1)), 16);
    assert_size(&rt, ColType::Int8Array, of_key(KeyVal::Num(-1)), 16);
}

#[test]
fn placeholders_have_a_byte_behind_the_tuple_of_a_null(rt: HostRuntime) {
    assert_size(
        &rt,
        ColType::Int4Array,
        Entry::placeholder(Category::NullKey),
        24,
    );
    assert_size(
        &rt,
        ColType::TextArray,
        Entry::placeholder(Category::EmptyItem),
        24,
    );
    assert_size(
        &rt,
        ColType::TextArray,
        Entry::placeholder(Category::NullItem),
        24,
    );
}

// How many bytes texts have, and the sizes of their entries' tuples: the header of a text of up to
// 126 bytes is one byte, and 2,712 bytes are the most that a tuple has.
static TEXTS: [(u16, u64); 5] = [(0, 16), (126, 136), (127, 144), (2700, 2712), (2701, 2720)];

fn assert_texts(rt: &impl Abort, alloc: Global, texts: &[(u16, u64)]) -> Result<(), Fail> {
    for (count, size) in texts {
        let text = vec![in alloc; b'x'; usize::from(*count)]?;
        assert_size(
            rt,
            ColType::TextArray,
            of_key(KeyVal::Raw(Items::from_vec(text))),
            *size,
        );
    }
    Ok(())
}

#[test]
fn texts_are_measured_with_their_header(rt: HostRuntime) -> Result<(), Fail> {
    assert_texts(&rt, rt.alloc(), &TEXTS)
}
