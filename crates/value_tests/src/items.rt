ghost use Rattle.std.specs.Prelude.{◌≤◌, ◌↔◌, IsTrue, length};
ghost use Rattle.tuple_data.specs.Laws.{room_of};
ghost use Rattle.btree_item.specs.Tuple.{size_of};

use btree_item::{plain, posting, size_of, truncate};
use opclass::ColType::{self, Bool, Int4, Int8, Text, Timestamptz};
use opclass::{KeyList, KeyVal, Kinds};
use pg_bytes::{Bytes, Items, RowPtr, al8};
use std::alloc::{AllocError, Global};
use std::process::Abort;
use std::test::Fail;

fn row(block: u32, offset: u16) -> RowPtr {
    RowPtr { block, offset }
}

// These numbers, where -1 stands for a null.
fn values_of(alloc: Global, numbers: &[i64]) -> Result<Vec<KeyVal>, AllocError> {
    let mut values = Vec::new(alloc);
    for number in numbers {
        values.push(match *number {
            -1 => KeyVal::Nil,
            number => KeyVal::Num(number),
        })?;
    }
    Ok(values)
}

fn text(alloc: Global, count: usize) -> Result<KeyVal, AllocError> {
    Ok(KeyVal::Raw(Items::from_vec(vec![in alloc; b'x'; count]?)))
}

fn is_small(value: &KeyVal) -> bool
    ensures { IsTrue result ↔ (room_of value.now ≤ 10011) }
{
    match value {
        KeyVal::Raw(bytes) => bytes.len() <= 10_000,
        _ => true,
    }
}

// Whether a tuple of these values is small enough to be made.
#[tactic(auto, using(btree_item::proofs::Sizes::few_size))]
fn fits(kinds: &Kinds, values: &KeyList) -> bool
    ensures few { IsTrue result → length values.now ≤ 32 }
    ensures size { IsTrue result → size_of kinds.now values.now ≤ 2704 }
{
    values.len() <= 32 && values.as_slice().iter().all(is_small) && size_of(kinds, values) <= 2704
}

// The plain tuple of a row.
fn plain_of(
    rt: &impl Abort,
    alloc: Global,
    kinds: &[ColType],
    values: Vec<KeyVal>,
    ptr: RowPtr,
) -> Result<Bytes, AllocError> {
    let kinds = Items::from_vec(kinds.to_vec(alloc)?);
    let values = KeyList::from_vec(values);
    assert!(rt; fits(&kinds, &values));
    plain(alloc, &kinds, &values, ptr)
}

// The posting tuple of these pointers and an int4.
fn posting_of(
    rt: &impl Abort,
    alloc: Global,
    key: i64,
    ptrs: &[RowPtr],
) -> Result<Bytes, AllocError> {
    let kinds = Items::from_vec([Int4].to_vec(alloc)?);
    let keys = KeyList::from_vec(values_of(alloc, &[key])?);
    assert!(rt; fits(&kinds, &keys) && ptrs.len() <= 1000);
    assert!(rt; al8(size_of(&kinds, &keys) + 6 * ptrs.len() as u64) <= 812);
    posting(alloc, &kinds, &keys, ptrs)
}

// The types and numbers of a row, where a null is -1, its line pointer, and its tuple.
static TUPLES: [(&[ColType], &[i64], (u32, u16), &[u8]); 5] = [
    (
        &[Int4],
        &[30],
        (0, 1),
        &[0, 0, 0, 0, 1, 0, 0x10, 0, 0x1E, 0, 0, 0, 0, 0, 0, 0],
    ),
    (
        &[Int4, Int4],
        &[10, 7],
        (0, 2),
        &[0, 0, 0, 0, 2, 0, 0x10, 0, 0x0A, 0, 0, 0, 7, 0, 0, 0],
    ),
    (
        &[Timestamptz, Int8],
        &[-1, 2],
        (0, 2),
        &[
            0, 0, 0, 0, 2, 0, 0x18, 0x80, 2, 0, 0, 0, 0, 0, 0, 0, 2, 0, 0, 0, 0, 0, 0, 0,
        ],
    ),
    (
        &[Timestamptz, Int8],
        &[800_000_000_000_000, 1],
        (0, 1),
        &[
            0, 0, 0, 0, 1, 0, 0x18, 0, 0, 0, 0xD2, 0x83, 0x98, 0xD7, 2, 0, 1, 0, 0, 0, 0, 0, 0, 0,
        ],
    ),
    (
        &[Text],
        &[-1],
        (1, 2),
        &[0, 0, 1, 0, 2, 0, 0x10, 0x80, 0, 0, 0, 0, 0, 0, 0, 0],
    ),
];

#[test]
fn plain_tuples_have_these_bytes(rt: HostRuntime) -> Result<(), Fail> {
    for (kinds, values, (block, offset), wanted) in &TUPLES {
        let values = values_of(rt.alloc(), values)?;
        let tuple = plain_of(&rt, rt.alloc(), kinds, values, row(*block, *offset))?;
        assert!(rt; tuple.as_slice() == *wanted);
    }
    Ok(())
}

// How long a text is, its tuple's size, and how t_info and the data begin.
static TEXTS: [(usize, usize, &[u8]); 3] = [
    (126, 136, &[0, 0, 0, 0, 1, 0, 0x88, 0x40, 0xFF, b'x']),
    (
        127,
        144,
        &[0, 0, 0, 0, 1, 0, 0x90, 0x40, 0x0C, 0x02, 0, 0, b'x'],
    ),
    (
        2692,
        2704,
        &[0, 0, 0, 0, 1, 0, 0x90, 0x4A, 0x20, 0x2A, 0, 0, b'x'],
    ),
];

#[test]
fn texts_have_these_sizes_and_heads(rt: HostRuntime) -> Result<(), Fail> {
    let alloc = rt.alloc();
    for (count, size, head) in &TEXTS {
        let mut values = Vec::new(alloc);
        values.push(text(alloc, *count)?)?;
        let tuple = plain_of(&rt, alloc, &[Text], values, row(0, 1))?;
        assert!(rt; tuple.len() == *size && tuple.as_slice().starts_with(head));
    }
    Ok(())
}

// Which of 32 columns is null, the tuple's size, and its head with what follows.
static NULLS: [(usize, usize, &[u8]); 3] = [
    (
        0,
        48,
        &[
            0, 0, 0, 0, 1, 0, 0x30, 0x80, 0xFE, 0xFF, 0xFF, 0xFF, 0, 0, 0, 0, 1,
        ],
    ),
    (
        31,
        48,
        &[
            0, 0, 0, 0, 1, 0, 0x30, 0x80, 0xFF, 0xFF, 0xFF, 0x7F, 0, 0, 0, 0, 1,
        ],
    ),
    (32, 40, &[0, 0, 0, 0, 1, 0, 0x28, 0, 1, 1]),
];

#[test]
fn thirty_two_columns_have_a_bit_each(rt: HostRuntime) -> Result<(), Fail> {
    for (null, size, head) in &NULLS {
        let mut values = values_of(rt.alloc(), &[1; 32])?;
        if let Some(value) = values.get_mut(*null) {
            *value = KeyVal::Nil;
        }
        let tuple = plain_of(&rt, rt.alloc(), &[Bool; 32], values, row(0, 1))?;
        assert!(rt; tuple.len() == *size && tuple.as_slice().starts_with(head));
    }
    Ok(())
}

#[test]
fn posting_tuples_have_these_bytes(rt: HostRuntime) -> Result<(), Fail> {
    let two = posting_of(&rt, rt.alloc(), 7, &[row(0, 1), row(0x10002, 3)])?;
    let wanted = [
        0, 0, 0x10, 0, 2, 0x20, 0x20, 0x20, 7, 0, 0, 0, 0, 0, 0, 0, 0, 0, 0, 0, 1, 0, 1, 0, 2, 0,
        3, 0, 0, 0, 0, 0,
    ];
    assert!(rt; two.as_slice() == wanted.as_slice());

    let mut ptrs = Vec::new(rt.alloc());
    for offset in 1..=132 {
        ptrs.push(row(0, offset))?;
    }
    let most = posting_of(&rt, rt.alloc(), 7, &ptrs)?;
    let head = [
        0, 0, 0x10, 0, 0x84, 0x20, 0x28, 0x23, 7, 0, 0, 0, 0, 0, 0, 0, 0, 0, 0, 0, 1, 0,
    ];
    assert!(rt; most.len() == 808);
    assert!(rt; most.as_slice().starts_with(&head));
    assert!(rt; most.as_slice().ends_with(&[0, 0, 0, 0, 0x84, 0]));
    Ok(())
}

// Two lists of keys, and how many attributes a pivot between them keeps.
static PIVOTS: [(&[i64], &[i64], u16); 5] = [
    (&[1, 5], &[2, 3], 1),
    (&[1, 5], &[1, 6], 2),
    (&[1, 5], &[1, 5], 3),
    (&[0], &[1], 1),
    (&[7], &[7], 2),
];

#[test]
fn pivots_keep_up_to_the_first_difference(rt: HostRuntime) -> Result<(), Fail> {
    for (left, right, wanted) in &PIVOTS {
        let left = KeyList::from_vec(values_of(rt.alloc(), left)?);
        let right = KeyList::from_vec(values_of(rt.alloc(), right)?);
        assert!(rt; left.len() == right.len() && right.len() <= 32);
        assert!(rt; truncate(&left, &right) == *wanted);
    }
    Ok(())
}
