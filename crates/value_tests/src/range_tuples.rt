ghost use Rattle.std.specs.Prelude.{◌≡◌, ◌↔◌, ◌≤◌, true, All, IsTrue, length};
ghost use Rattle.opclass.specs.Types.{facts_of, takes_key};
ghost use Rattle.opclass.specs.declared.types.Method.TheVariants.{Brin};

use brin_summary::{RangeCol, RangeTuple, read_range};
use opclass::ColType::{self, Int4, Text};
use opclass::{KeyVal, Kinds, Method};
use pg_bytes::Items;
use std::alloc::{AllocError, Global};
use std::process::Abort;
use std::test::Fail;

// The least and the greatest value of a column, if it has any.
#[derive(Clone, Copy)]
enum Bounds {
    None,
    Numbers(i64, i64),
    Texts(&'static [u8], &'static [u8]),
}

// What a range's tuple is to say: its first block, whether it has no row, and of each column its
// bounds and whether a row is null there. Of its bytes so many can have their lowest bit turned and
// still be a tuple, which then says something else.
struct Tuple {
    kinds: &'static [ColType],
    bytes: &'static [u8],
    first: u32,
    empty: bool,
    columns: &'static [(Bounds, bool)],
    others: usize,
}

static TUPLES: &[Tuple] = &[
    Tuple {
        kinds: &[Int4],
        bytes: &[0, 0, 0, 0, 8, 0, 0, 0, 0xFE, 0xFF, 0xFF, 0xFF, 9, 0, 0, 0],
        first: 0,
        empty: false,
        columns: &[(Bounds::Numbers(-2, 9), false)],
        others: 12,
    },
    Tuple {
        kinds: &[Int4],
        bytes: &[3, 0, 0, 0, 0xA8, 1, 0, 0],
        first: 3,
        empty: true,
        columns: &[(Bounds::None, false)],
        others: 4,
    },
    Tuple {
        kinds: &[Int4],
        bytes: &[6, 0, 0, 0, 0x88, 3, 0, 0],
        first: 6,
        empty: false,
        columns: &[(Bounds::None, true)],
        others: 4,
    },
    Tuple {
        kinds: &[Int4, Text],
        bytes: &[
            0x80, 0, 0, 0, 0x88, 8, 0, 0, 1, 0, 0, 0, 3, 0, 0, 0, 5, b'a', 5, b'b', 0, 0, 0, 0,
        ],
        first: 128,
        empty: false,
        columns: &[
            (Bounds::Numbers(1, 3), false),
            (Bounds::Texts(b"a", b"b"), true),
        ],
        others: 14,
    },
];

fn is_bound(column: &RangeCol, bounds: Bounds) -> bool {
    match (&column.low, &column.high, bounds) {
        (KeyVal::Nil, KeyVal::Nil, Bounds::None) => column.all_null,
        (KeyVal::Num(low), KeyVal::Num(high), Bounds::Numbers(least, most)) => {
            !column.all_null && *low == least && *high == most
        }
        (KeyVal::Raw(low), KeyVal::Raw(high), Bounds::Texts(least, most)) => {
            !column.all_null && low.as_slice() == least && high.as_slice() == most
        }
        _ => false,
    }
}

// Whether a tuple was read, and says what it is to say.
fn says(range: &Option<RangeTuple>, tuple: &Tuple) -> bool {
    let Some(range) = range else {
        return false;
    };
    let columns = range.columns.as_slice();
    range.first == tuple.first
        && range.empty == tuple.empty
        && columns.len() == tuple.columns.len()
        && columns.iter().zip(tuple.columns).all(|(column, (bounds, null))| is_bound(
            column, *bounds,
        ) && column.has_null == *null)
}

fn is_taken(kind: &ColType) -> bool
    ensures { IsTrue result ↔ (takes_key Brin (facts_of kind.now).key_use ≡ true) }
{
    Method::Brin.takes(*kind)
}

// Whether a BRIN index may have columns of these types.
fn are_taken(kinds: &Kinds) -> bool
    ensures some { IsTrue result → 1 ≤ length kinds.now }
    ensures few { IsTrue result → length kinds.now ≤ 32 }
    ensures taken { IsTrue result
        → All (λ kind. takes_key Brin (facts_of kind).key_use ≡ true) kinds.now }
{
    1 <= kinds.len() && kinds.len() <= 32 && kinds.as_slice().iter().all(is_taken)
}

fn read(
    rt: &impl Abort,
    alloc: Global,
    kinds: &[ColType],
    bytes: &[u8],
) -> Result<Option<RangeTuple>, AllocError> {
    let kinds = Items::from_vec(kinds.to_vec(alloc)?);
    assert!(rt; are_taken(&kinds));
    read_range(alloc, &kinds, bytes)
}

// How many bytes can have their lowest bit turned so that the bytes are a tuple again. None of
// these may say the same.
fn others_of(rt: &impl Abort, alloc: Global, tuple: &Tuple) -> Result<usize, AllocError> {
    let mut bytes = tuple.bytes.to_vec(alloc)?;
    let mut others = 0usize;
    for at in 0..tuple.bytes.len() {
        bytes[at] ^= 1;
        let range = read(rt, alloc, tuple.kinds, &bytes)?;
        assert!(rt; !says(&range, tuple));
        others = others.saturating_add(usize::from(range.is_some()));
        bytes[at] ^= 1;
    }
    Ok(others)
}

#[test]
fn tuples_of_ranges_are_read(rt: HostRuntime) -> Result<(), Fail> {
    for tuple in TUPLES {
        let range = read(&rt, rt.alloc(), tuple.kinds, tuple.bytes)?;
        assert!(rt; says(&range, tuple));
        assert!(rt; others_of(&rt, rt.alloc(), tuple)? == tuple.others);
    }
    Ok(())
}
