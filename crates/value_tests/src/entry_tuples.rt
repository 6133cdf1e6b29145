use gin_entry::Entry;
use gin_file::{EntryItem, read_entry};
use opclass::{ColType, KeyVal};
use pg_bytes::RowPtr;
use std::alloc::{AllocError, Global};
use std::test::Fail;

// What a tuple is to say: the category and, for a key, the number of its entry, and where it leads.
#[derive(Clone, Copy, Debug, PartialEq, Eq)]
enum Said {
    List(u8, i64, &'static [(u32, u16)]),
    Tree(u8, i64, u32),
    Inner(u8, i64, u32),
}

// A tuple, whether it stands on a leaf, what it says, and how many of its bytes can have their
// lowest bit turned and still be a tuple, which then says something else.
struct Tuple {
    bytes: &'static [u8],
    leaf: bool,
    said: Said,
    others: usize,
}

const KEY: u8 = 0;

const NULL_KEY: u8 = 1;

// Of `{5,5,1}` at (0,1) and `{NULL,1}` at (0,4) the tuples of 1 and of the null. Then a tuple that
// leads to a posting tree at block 7, and one above the leaves that leads to block 5.
static TUPLES: &[Tuple] = &[
    Tuple {
        bytes: &[
            0, 0x80, 0x10, 0, 2, 0, 0x20, 0, 1, 0, 0, 0, 0, 0, 0, 0, 0, 0, 0, 0, 1, 0, 1, 0, 3, 0,
            0, 0, 0, 0, 0, 0,
        ],
        leaf: true,
        said: Said::List(KEY, 1, &[(0, 1), (0, 4)]),
        others: 10,
    },
    Tuple {
        bytes: &[
            0, 0x80, 0x12, 0, 1, 0, 0x20, 0x80, 0, 0, 0, 0, 0, 0, 0, 0, 1, 0, 0, 0, 0, 0, 4, 0, 0,
            0, 0, 0, 0, 0, 0, 0,
        ],
        leaf: true,
        said: Said::List(NULL_KEY, 0, &[(0, 4)]),
        others: 6,
    },
    Tuple {
        bytes: &[0, 0, 7, 0, 0xFF, 0xFF, 0x10, 0, 1, 0, 0, 0, 0, 0, 0, 0],
        leaf: true,
        said: Said::Tree(KEY, 1, 7),
        others: 8,
    },
    Tuple {
        bytes: &[0, 0, 5, 0, 0, 0, 0x10, 0, 1, 0, 0, 0, 0, 0, 0, 0],
        leaf: false,
        said: Said::Inner(KEY, 1, 5),
        others: 8,
    },
];

fn is_entry(entry: &Entry, category: u8, number: i64) -> bool {
    let key = match entry.key {
        KeyVal::Num(key) => key,
        _ => 0,
    };
    entry.category == category && key == number
}

fn are_rows(ptrs: &[RowPtr], rows: &[(u32, u16)]) -> bool {
    let mut same = ptrs.len() == rows.len();
    for (ptr, (block, offset)) in ptrs.iter().zip(rows) {
        same = same && ptr.block == *block && ptr.offset == *offset;
    }
    same
}

// Whether a tuple was read, and says this.
fn says(item: &Option<EntryItem>, said: Said) -> bool {
    match (item, said) {
        (Some(EntryItem::List { entry, ptrs }), Said::List(category, number, rows)) => {
            is_entry(entry, category, number) && are_rows(ptrs.as_slice(), rows)
        }
        (Some(EntryItem::Tree { entry, root }), Said::Tree(category, number, block)) => {
            is_entry(entry, category, number) && *root == block
        }
        (Some(EntryItem::Inner { entry, child }), Said::Inner(category, number, block)) => {
            is_entry(entry, category, number) && *child == block
        }
        _ => false,
    }
}

fn read(alloc: Global, tuple: &Tuple, bytes: &[u8]) -> Result<Option<EntryItem>, AllocError> {
    read_entry(alloc, ColType::Int4Array, tuple.leaf, bytes)
}

// How many bytes can have their lowest bit turned so that the bytes are a tuple again. None of
// these may say the same.
fn others_of(alloc: Global, tuple: &Tuple) -> Result<Option<usize>, AllocError> {
    let mut bytes = tuple.bytes.to_vec(alloc)?;
    let mut others = 0usize;
    for at in 0..tuple.bytes.len() {
        bytes[at] ^= 1;
        let item = read(alloc, tuple, &bytes)?;
        if says(&item, tuple.said) {
            return Ok(None);
        }
        if item.is_some() {
            others = others.saturating_add(1);
        }
        bytes[at] ^= 1;
    }
    Ok(Some(others))
}

#[test]
fn tuples_of_the_entry_tree_are_read(rt: HostRuntime) -> Result<(), Fail> {
    for tuple in TUPLES {
        let item = read(rt.alloc(), tuple, tuple.bytes)?;
        assert!(rt; says(&item, tuple.said));
        let elsewhere = read_entry(rt.alloc(), ColType::Int4Array, !tuple.leaf, tuple.bytes)?;
        assert!(rt; elsewhere.is_none());
        assert!(rt; others_of(rt.alloc(), tuple)? == Some(tuple.others));
    }
    Ok(())
}
