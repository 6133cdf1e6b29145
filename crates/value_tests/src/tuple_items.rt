ghost use Rattle.std.specs.Prelude.{◌≡◌, ◌≤◌, ◌↔◌, IsTrue, length, take};
ghost use Rattle.opclass.specs.Types.{facts_of};
ghost use Rattle.tuple_data.specs.Laws.{room_of};
ghost use Rattle.tuple_data.specs.Reading.{AreStored, IsStored};
ghost use Rattle.btree_item.specs.Tuple.{size_of};

use btree_item::{Item, pivot, plain, posting, read_item, size_of};
use opclass::ColType::{self, Bool, Int2, Int4, Int8, Text, Timestamptz};
use opclass::{Form, KeyList, KeyVal, Kinds};
use pg_bytes::{Bytes, Items, RowPtr, al8};
use std::alloc::{AllocError, Global};
use std::process::Abort;
use std::test::Fail;

// A part of a tuple: these bytes, a byte so many times, or the row pointers (0, 1) up to this one.
#[derive(Clone, Copy)]
enum Part {
    Bytes(&'static [u8]),
    Times(u8, usize),
    RowsTo(u8),
}

// A value: null, a number, these bytes, or so many letters x.
#[derive(Clone, Copy)]
enum Cell {
    Null,
    Number(i64),
    Text(&'static [u8]),
    Letters(usize),
}

// Row pointers: each of these, or (0, 1) up to this one.
#[derive(Clone, Copy)]
enum Rows {
    Each(&'static [(u32, u16)]),
    To(u16),
}

// What a tuple is to say.
#[derive(Clone, Copy)]
enum Said {
    Plain(&'static [Cell], (u32, u16)),
    Posting(&'static [Cell], Rows),
    Pivot(&'static [Cell], Option<(u32, u16)>, u32),
}

// The types of the columns, a tuple, what it says, and how many of its bytes can have their lowest
// bit turned and still be a tuple, which then says something else.
struct Tuple {
    kinds: &'static [ColType],
    parts: &'static [Part],
    said: Said,
    others: usize,
}

// A truth value of a row with many.
const TRUE: Cell = Cell::Number(1);

static LEAF_TUPLES: &[Tuple] = &[
    Tuple {
        kinds: &[Int4],
        parts: &[Part::Bytes(&[0, 0, 0, 0, 1, 0, 0x10, 0, 0x1E, 0, 0, 0, 0, 0, 0, 0])],
        said: Said::Plain(&[Cell::Number(30)], (0, 1)),
        others: 10,
    },
    // a key and an INCLUDE value
    Tuple {
        kinds: &[Int4, Int4],
        parts: &[Part::Bytes(&[0, 0, 0, 0, 2, 0, 0x10, 0, 0x0A, 0, 0, 0, 7, 0, 0, 0])],
        said: Said::Plain(&[Cell::Number(10), Cell::Number(7)], (0, 2)),
        others: 14,
    },
    Tuple {
        kinds: &[Timestamptz, Int8],
        parts: &[Part::Bytes(&[
            0, 0, 0, 0, 2, 0, 0x18, 0x80, 2, 0, 0, 0, 0, 0, 0, 0, 2, 0, 0, 0, 0, 0, 0, 0,
        ])],
        said: Said::Plain(&[Cell::Null, Cell::Number(2)], (0, 2)),
        others: 14,
    },
    Tuple {
        kinds: &[Timestamptz, Int8],
        parts: &[Part::Bytes(&[
            0, 0, 0, 0, 1, 0, 0x18, 0, 0, 0, 0xD2, 0x83, 0x98, 0xD7, 2, 0, 1, 0, 0, 0, 0, 0, 0, 0,
        ])],
        said: Said::Plain(
            &[Cell::Number(800_000_000_000_000), Cell::Number(1)],
            (0, 1),
        ),
        others: 22,
    },
    Tuple {
        kinds: &[Text],
        parts: &[Part::Bytes(&[0, 0, 1, 0, 2, 0, 0x10, 0x80, 0, 0, 0, 0, 0, 0, 0, 0])],
        said: Said::Plain(&[Cell::Null], (1, 2)),
        others: 6,
    },
    // texts under a header of one byte and of four, and the longest that has room
    Tuple {
        kinds: &[Text],
        parts: &[
            Part::Bytes(&[0, 0, 0, 0, 1, 0, 0x88, 0x40, 0xFF]),
            Part::Times(b'x', 126),
            Part::Times(0, 1),
        ],
        said: Said::Plain(&[Cell::Letters(126)], (0, 1)),
        others: 132,
    },
    Tuple {
        kinds: &[Text],
        parts: &[
            Part::Bytes(&[0, 0, 0, 0, 1, 0, 0x90, 0x40, 0x0C, 2, 0, 0]),
            Part::Times(b'x', 127),
            Part::Times(0, 5),
        ],
        said: Said::Plain(&[Cell::Letters(127)], (0, 1)),
        others: 133,
    },
    Tuple {
        kinds: &[Text],
        parts: &[
            Part::Bytes(&[0, 0, 0, 0, 1, 0, 0x90, 0x4A, 0x20, 0x2A, 0, 0]),
            Part::Times(b'x', 2692),
        ],
        said: Said::Plain(&[Cell::Letters(2692)], (0, 1)),
        others: 2698,
    },
    // a number, a text, a truth value and a number of two bytes, with nulls between them
    Tuple {
        kinds: &[Int4, Text, Bool, Int8, Int2],
        parts: &[Part::Bytes(&[
            0, 0, 3, 0, 9, 0, 0x18, 0xC0, 0x16, 0, 0, 0, 0, 0, 0, 0, 9, b'a', b'n', b'n', 1, 0,
            0xFE, 0xFF,
        ])],
        said: Said::Plain(
            &[
                Cell::Null,
                Cell::Text(b"ann"),
                Cell::Number(1),
                Cell::Null,
                Cell::Number(-2),
            ],
            (3, 9),
        ),
        others: 12,
    },
    // 32 columns, the last of them null
    Tuple {
        kinds: &[Bool; 32],
        parts: &[
            Part::Bytes(&[
                0, 0, 0, 0, 1, 0, 0x30, 0x80, 0xFF, 0xFF, 0xFF, 0x7F, 0, 0, 0, 0,
            ]),
            Part::Times(1, 31),
            Part::Times(0, 1),
        ],
        said: Said::Plain(
            &[
                TRUE,
                TRUE,
                TRUE,
                TRUE,
                TRUE,
                TRUE,
                TRUE,
                TRUE,
                TRUE,
                TRUE,
                TRUE,
                TRUE,
                TRUE,
                TRUE,
                TRUE,
                TRUE,
                TRUE,
                TRUE,
                TRUE,
                TRUE,
                TRUE,
                TRUE,
                TRUE,
                TRUE,
                TRUE,
                TRUE,
                TRUE,
                TRUE,
                TRUE,
                TRUE,
                TRUE,
                Cell::Null,
            ],
            (0, 1),
        ),
        others: 37,
    },
    Tuple {
        kinds: &[Int4],
        parts: &[Part::Bytes(&[
            0, 0, 0x10, 0, 2, 0x20, 0x20, 0x20, 7, 0, 0, 0, 0, 0, 0, 0, 0, 0, 0, 0, 1, 0, 1, 0, 2,
            0, 3, 0, 0, 0, 0, 0,
        ])],
        said: Said::Posting(&[Cell::Number(7)], Rows::Each(&[(0, 1), (0x10002, 3)])),
        others: 15,
    },
    // as many rows as the packer puts into a tuple
    Tuple {
        kinds: &[Int4],
        parts: &[
            Part::Bytes(&[0, 0, 0x10, 0, 0x84, 0x20, 0x28, 0x23]),
            Part::Bytes(&[7, 0, 0, 0, 0, 0, 0, 0]),
            Part::RowsTo(132),
        ],
        said: Said::Posting(&[Cell::Number(7)], Rows::To(132)),
        others: 11,
    },
    Tuple {
        kinds: &[Int4, Int8],
        parts: &[Part::Bytes(&[
            0, 0, 0x18, 0, 2, 0x20, 0x28, 0xA0, 2, 0, 0, 0, 0, 0, 0, 0, 5, 0, 0, 0, 0, 0, 0, 0, 0,
            0, 1, 0, 2, 0, 0, 0, 1, 0, 3, 0, 0, 0, 0, 0,
        ])],
        said: Said::Posting(
            &[Cell::Null, Cell::Number(5)],
            Rows::Each(&[(1, 2), (1, 3)]),
        ),
        others: 13,
    },
];

static PIVOTS: &[Tuple] = &[
    // high keys of leaves: all attributes, the first of two, and both
    Tuple {
        kinds: &[Int4],
        parts: &[Part::Bytes(&[0, 0, 0, 0, 1, 0, 0x10, 0x20, 0x6F, 1, 0, 0, 0, 0, 0, 0])],
        said: Said::Pivot(&[Cell::Number(367)], None, 0),
        others: 8,
    },
    Tuple {
        kinds: &[Int4, Int4],
        parts: &[Part::Bytes(&[0, 0, 0, 0, 1, 0, 0x10, 0x20, 0x6F, 1, 0, 0, 0, 0, 0, 0])],
        said: Said::Pivot(&[Cell::Number(367)], None, 0),
        others: 8,
    },
    Tuple {
        kinds: &[Int4, Int4],
        parts: &[Part::Bytes(&[0, 0, 0, 0, 2, 0, 0x10, 0x20, 1, 0, 0, 0, 0x6F, 1, 0, 0])],
        said: Said::Pivot(&[Cell::Number(1), Cell::Number(367)], None, 0),
        others: 12,
    },
    // above the leaves: minus infinity, and the first key of block 2
    Tuple {
        kinds: &[Int4],
        parts: &[Part::Bytes(&[0, 0, 1, 0, 0, 0, 8, 0x20])],
        said: Said::Pivot(&[], None, 1),
        others: 4,
    },
    Tuple {
        kinds: &[Int4],
        parts: &[Part::Bytes(&[0, 0, 2, 0, 1, 0, 0x10, 0x20, 0x6F, 1, 0, 0, 0, 0, 0, 0])],
        said: Said::Pivot(&[Cell::Number(367)], None, 2),
        others: 8,
    },
    // with a row pointer
    Tuple {
        kinds: &[Int4],
        parts: &[Part::Bytes(&[
            0, 0, 0, 0, 1, 0x10, 0x18, 0x20, 7, 0, 0, 0, 0, 0, 0, 0, 0, 0, 0, 0, 5, 0, 0x3A, 0,
        ])],
        said: Said::Pivot(&[Cell::Number(7)], Some((5, 58)), 0),
        others: 14,
    },
    Tuple {
        kinds: &[Text, Int4],
        parts: &[Part::Bytes(&[
            0, 0, 9, 0, 2, 0x10, 0x20, 0xA0, 2, 0, 0, 0, 0, 0, 0, 0, 7, 0, 0, 0, 0, 0, 0, 0, 0, 0,
            0, 0, 1, 0, 2, 0,
        ])],
        said: Said::Pivot(&[Cell::Null, Cell::Number(7)], Some((1, 2)), 9),
        others: 14,
    },
];

// Bytes that are no tuple, over an int4 and an int8: of one row and of equal rows a posting tuple,
// with a row pointer a pivot of one attribute, and of three a pivot.
static NO_TUPLES: &[&[u8]] = &[
    &[],
    &[0, 0, 1, 0, 0, 0, 8],
    &[
        0, 0, 0x18, 0, 1, 0x20, 0x20, 0x20, 7, 0, 0, 0, 0, 0, 0, 0, 5, 0, 0, 0, 0, 0, 0, 0, 0, 0,
        0, 0, 1, 0, 0, 0,
    ],
    &[
        0, 0, 0x18, 0, 2, 0x20, 0x28, 0x20, 7, 0, 0, 0, 0, 0, 0, 0, 5, 0, 0, 0, 0, 0, 0, 0, 0, 0,
        1, 0, 2, 0, 0, 0, 1, 0, 2, 0, 0, 0, 0, 0,
    ],
    &[
        0, 0, 0, 0, 1, 0x10, 0x18, 0x20, 7, 0, 0, 0, 0, 0, 0, 0, 0, 0, 0, 0, 5, 0, 0x3A, 0,
    ],
    &[
        0, 0, 0, 0, 3, 0, 0x18, 0x20, 7, 0, 0, 0, 0, 0, 0, 0, 5, 0, 0, 0, 0, 0, 0, 0,
    ],
];

fn bytes_of(alloc: Global, parts: &[Part]) -> Result<Vec<u8>, AllocError> {
    let mut bytes = Vec::new(alloc);
    for part in parts {
        match *part {
            Part::Bytes(part) => bytes.extend_from_slice(part)?,
            Part::Times(byte, count) => {
                for _ in 0..count {
                    bytes.push(byte)?;
                }
            }
            Part::RowsTo(last) => {
                for offset in 1..=last {
                    bytes.extend_from_slice(&[0, 0, 0, 0, offset, 0])?;
                }
            }
        }
    }
    Ok(bytes)
}

fn is_row(ptr: &RowPtr, row: (u32, u16)) -> bool {
    ptr.block == row.0 && ptr.offset == row.1
}

fn are_rows(ptrs: &[RowPtr], rows: Rows) -> bool {
    match rows {
        Rows::Each(rows) => {
            ptrs.len() == rows.len() && ptrs.iter().zip(rows).all(|(ptr, row)| is_row(ptr, *row))
        }
        Rows::To(last) => {
            ptrs.len() == usize::from(last)
                && ptrs
                    .iter()
                    .zip(1..=last)
                    .all(|(ptr, offset)| is_row(ptr, (0, offset)))
        }
    }
}

fn is_cell(value: &KeyVal, cell: Cell) -> bool {
    match (value, cell) {
        (KeyVal::Nil, Cell::Null) => true,
        (KeyVal::Num(number), Cell::Number(wanted)) => *number == wanted,
        (KeyVal::Raw(bytes), Cell::Text(wanted)) => bytes.as_slice() == wanted,
        (KeyVal::Raw(bytes), Cell::Letters(count)) => {
            bytes.len() == count && bytes.as_slice().iter().all(|byte| *byte == b'x')
        }
        _ => false,
    }
}

fn are_cells(values: &KeyList, cells: &[Cell]) -> bool {
    let values = values.as_slice();
    values.len() == cells.len()
        && values
            .iter()
            .zip(cells)
            .all(|(value, cell)| is_cell(value, *cell))
}

// Whether a tuple was read, and says this.
fn says(item: &Option<Item>, said: Said) -> bool {
    match (item, said) {
        (Some(Item::Plain { keys, ptr }), Said::Plain(cells, row)) => {
            are_cells(keys, cells) && is_row(ptr, row)
        }
        (Some(Item::Posting { keys, ptrs }), Said::Posting(cells, rows)) => {
            are_cells(keys, cells) && are_rows(ptrs.as_slice(), rows)
        }
        (Some(Item::Pivot { keys, last, child }), Said::Pivot(cells, row, block)) => {
            let same_last = match (last, row) {
                (None, None) => true,
                (Some(last), Some(row)) => is_row(last, row),
                _ => false,
            };
            are_cells(keys, cells) && same_last && *child == block
        }
        _ => false,
    }
}

fn is_stored(kind: &ColType) -> bool
    ensures { IsTrue result ↔ IsStored (facts_of kind.now).form }
{
    !matches!(kind.facts().form, Form::Array(_))
}

// Whether a tuple may have columns of these types.
fn are_stored(kinds: &Kinds) -> bool
    ensures few { IsTrue result → length kinds.now ≤ 32 }
    ensures stored { IsTrue result → AreStored kinds.now }
{
    kinds.len() <= 32 && kinds.as_slice().iter().all(is_stored)
}

fn is_small(value: &KeyVal) -> bool
    ensures { IsTrue result ↔ (room_of value.now ≤ 10011) }
{
    match value {
        KeyVal::Raw(bytes) => bytes.len() <= 10_000,
        _ => true,
    }
}

// Whether a tuple of these values is small enough to be made.
#[tactic(auto, using(btree_item::proofs::Sizes::few_size))]
fn fits(kinds: &Kinds, values: &KeyList) -> bool
    ensures few { IsTrue result → length values.now ≤ 32 }
    ensures size { IsTrue result → size_of kinds.now values.now ≤ 2704 }
{
    values.len() <= 32 && values.as_slice().iter().all(is_small) && size_of(kinds, values) <= 2704
}

// What is read of bytes where so many of the columns are keys.
fn read(
    rt: &impl Abort,
    alloc: Global,
    kinds: &[ColType],
    keys: usize,
    bytes: &[u8],
) -> Result<Option<Item>, AllocError> {
    let kinds = Items::from_vec(kinds.to_vec(alloc)?);
    assert!(rt; are_stored(&kinds));
    assert!(rt; 1 <= keys && keys <= kinds.len());
    read_item(alloc, &kinds, keys as u16, bytes)
}

// The bytes of what was read, written again.
fn written(
    rt: &impl Abort,
    alloc: Global,
    kinds: &[ColType],
    item: &Item,
) -> Result<Bytes, AllocError> {
    match item {
        Item::Plain { keys, ptr } => {
            let kinds = Items::from_vec(kinds.to_vec(alloc)?);
            assert!(rt; fits(&kinds, keys));
            plain(alloc, &kinds, keys, *ptr)
        }
        Item::Posting { keys, ptrs } => {
            let kinds = Items::from_vec(kinds.to_vec(alloc)?);
            assert!(rt; fits(&kinds, keys) && ptrs.len() <= 1000);
            assert!(rt; al8(size_of(&kinds, keys) + 6 * ptrs.len() as u64) <= 2704);
            posting(alloc, &kinds, keys, ptrs.as_slice())
        }
        Item::Pivot { keys, last, child } => {
            assert!(rt; keys.len() <= kinds.len());
            written_pivot(rt, alloc, &kinds[..keys.len()], keys, *last, *child)
        }
    }
}

fn written_pivot(
    rt: &impl Abort,
    alloc: Global,
    kinds: &[ColType],
    keys: &KeyList,
    last: Option<RowPtr>,
    child: u32,
) -> Result<Bytes, AllocError> {
    let kinds = Items::from_vec(kinds.to_vec(alloc)?);
    assert!(rt; keys.len() <= 32);
    let kept = keys.len() as u16;
    assert!(rt; keeps_all(&kinds, keys, kept));
    pivot(alloc, &kinds, keys, kept, last, child)
}

// Whether a pivot of all these attributes is small enough to be made.
#[tactic(auto, using(std::proofs::lemmas::List::take_all))]
fn keeps_all(kinds: &Kinds, keys: &KeyList, kept: u16) -> bool
    ensures few { IsTrue result → length keys.now ≤ 32 }
    ensures columns { IsTrue result → length kinds.now ≡ length keys.now }
    ensures kept { IsTrue result → kept ≤ length keys.now }
    ensures size { IsTrue result
        → size_of (take kept kinds.now) (take kept keys.now) ≤ 2704 }
{
    usize::from(kept) == keys.len() && kinds.len() == keys.len() && fits(kinds, keys)
}

// How many bytes can have their lowest bit turned so that the bytes are a tuple again. Each of
// these says something else, and is written with the bytes that were read.
fn others_of(
    rt: &impl Abort,
    alloc: Global,
    tuple: &Tuple,
    bytes: &mut [u8],
) -> Result<usize, AllocError> {
    let mut others = 0usize;
    for at in 0..bytes.len() {
        bytes[at] ^= 1;
        let item = read(rt, alloc, tuple.kinds, tuple.kinds.len(), bytes)?;
        assert!(rt; !says(&item, tuple.said));
        if let Some(item) = item {
            let again = written(rt, alloc, tuple.kinds, &item)?;
            assert!(rt; again.as_slice() == &*bytes);
            others = others.saturating_add(1);
        }
        bytes[at] ^= 1;
    }
    Ok(others)
}

fn each_is_read(rt: &impl Abort, alloc: Global, tuples: &[Tuple]) -> Result<(), AllocError> {
    for tuple in tuples {
        let mut bytes = bytes_of(alloc, tuple.parts)?;
        let item = read(rt, alloc, tuple.kinds, tuple.kinds.len(), &bytes)?;
        assert!(rt; says(&item, tuple.said));
        assert!(rt; others_of(rt, alloc, tuple, &mut bytes)? == tuple.others);
    }
    Ok(())
}

#[test]
fn tuples_of_leaves_are_read(rt: HostRuntime) -> Result<(), Fail> {
    each_is_read(&rt, rt.alloc(), LEAF_TUPLES)?;
    Ok(())
}

#[test]
fn pivots_are_read(rt: HostRuntime) -> Result<(), Fail> {
    each_is_read(&rt, rt.alloc(), PIVOTS)?;
    Ok(())
}

#[test]
fn other_bytes_are_no_tuples(rt: HostRuntime) -> Result<(), Fail> {
    for bytes in NO_TUPLES {
        assert!(rt; read(&rt, rt.alloc(), &[Int4, Int8], 2, bytes)?.is_none());
    }
    Ok(())
}

// Of two int4 columns the first is a key, or both are: a row's tuple, one of two rows, and pivots
// of both attributes, of one, and of one with a row pointer. A pivot has keys alone, and rows share
// a tuple only where all columns are keys.
static OF_TWO_COLUMNS: &[(&[u8], bool, bool)] = &[
    (
        &[0, 0, 0, 0, 2, 0, 0x10, 0, 10, 0, 0, 0, 7, 0, 0, 0],
        true,
        true,
    ),
    (
        &[
            0, 0, 0x10, 0, 2, 0x20, 0x20, 0x20, 10, 0, 0, 0, 7, 0, 0, 0, 0, 0, 0, 0, 1, 0, 0, 0, 0,
            0, 2, 0, 0, 0, 0, 0,
        ],
        false,
        true,
    ),
    (
        &[0, 0, 5, 0, 2, 0, 0x10, 0x20, 10, 0, 0, 0, 7, 0, 0, 0],
        false,
        true,
    ),
    (
        &[0, 0, 5, 0, 1, 0, 0x10, 0x20, 10, 0, 0, 0, 0, 0, 0, 0],
        true,
        true,
    ),
    (
        &[
            0, 0, 5, 0, 1, 0x10, 0x18, 0x20, 10, 0, 0, 0, 0, 0, 0, 0, 0, 0, 0, 0, 1, 0, 2, 0,
        ],
        true,
        false,
    ),
];

#[test]
fn include_columns_are_no_keys(rt: HostRuntime) -> Result<(), Fail> {
    for (bytes, of_one, of_two) in OF_TWO_COLUMNS {
        for (keys, is_tuple) in [(1, *of_one), (2, *of_two)] {
            let item = read(&rt, rt.alloc(), &[Int4, Int4], keys, bytes)?;
            assert!(rt; item.is_some() == is_tuple);
        }
    }
    Ok(())
}
