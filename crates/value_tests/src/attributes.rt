ghost use Rattle.std.specs.Prelude.{◌^◌, ◌<◌, length};

use opclass::{ColType, KeyList, KeyVal, SortPart, SortSpec, cmp_key};
use pg_bytes::Items;
use std::alloc::{AllocError, Global};
use std::test::Fail;
use tuple_data::{Attribute, Values, cmp_values, read_data};

static KINDS: [ColType; 3] = [ColType::Int2, ColType::Text, ColType::Int8];

// The first column and the third ascend, the second descends.
const ORDER: [SortPart; 3] = [
    SortPart {
        descending: false,
        nulls_first: false,
    },
    SortPart {
        descending: true,
        nulls_first: true,
    },
    SortPart {
        descending: false,
        nulls_first: false,
    },
];

// The null bits and the data of tuples, in their order.
static TUPLES: [(u64, &[u8]); 6] = [
    (0b101, &[5, 0, 0, 0, 0, 0, 0, 0, 6, 0, 0, 0, 0, 0, 0, 0]),
    (
        0b111,
        &[5, 0, 7, b'b', b'a', 0, 0, 0, 6, 0, 0, 0, 0, 0, 0, 0],
    ),
    (
        0b111,
        &[5, 0, 7, b'a', b'b', 0, 0, 0, 6, 0, 0, 0, 0, 0, 0, 0],
    ),
    (0b011, &[5, 0, 7, b'a', b'b']),
    (0b111, &[5, 0, 5, b'a', 0, 0, 0, 0, 0, 1, 0, 0, 0, 0, 0, 0]),
    (0b110, &[5, b'a', 0, 0, 0, 0, 0, 0, 6, 0, 0, 0, 0, 0, 0, 0]),
];

// The values where they stand.
fn placed(present: u64, bytes: &[u8]) -> Option<Values<'_>>
    requires { length bytes.now < 2 ^ 30 }
{
    Values::of(&KINDS, present, bytes)
}

// The same values in memory of their own.
fn read(alloc: Global, present: u64, bytes: &[u8]) -> Result<Option<KeyList>, AllocError>
    requires { length bytes.now < 2 ^ 30 }
{
    read_data(alloc, &KINDS, present, bytes)
}

fn is_same(attribute: Attribute, value: &KeyVal) -> bool {
    match (attribute, value) {
        (Attribute::Null, KeyVal::Nil) => true,
        (Attribute::Number(number), KeyVal::Num(other)) => number == *other,
        (Attribute::Bytes(bytes), KeyVal::Raw(other)) => bytes == other.as_slice(),
        _ => false,
    }
}

#[test]
fn values_in_place_are_those_that_are_read(rt: HostRuntime) -> Result<(), Fail> {
    let alloc = rt.alloc();
    for (present, bytes) in TUPLES {
        assert!(rt; bytes.len() < 100);
        let values = placed(present, bytes).ok_or("no values")?;
        let copies = read(alloc, present, bytes)?.ok_or("no copies")?;
        assert!(rt; values.len() == 3 && copies.len() == 3);
        for at in 0..3 {
            assert!(rt; is_same(values.get(at), copies.get(at)));
        }
    }
    // a byte between two values, a bit of a fourth column, no third value, a long header of a
    // short text
    let refused: [(u64, &[u8]); 4] = [
        (0b101, &[5, 0, 1, 0, 0, 0, 0, 0, 6, 0, 0, 0, 0, 0, 0, 0]),
        (0b1011, &[5, 0, 7, b'a', b'b']),
        (0b111, &[5, 0, 7, b'a', b'b']),
        (0b010, &[0x14, 0, 0, 0, b'a']),
    ];
    for (present, bytes) in refused {
        assert!(rt; bytes.len() < 100);
        assert!(rt; placed(present, bytes).is_none());
    }
    Ok(())
}

#[test]
fn values_in_place_compare_as_keys(rt: HostRuntime) -> Result<(), Fail> {
    let alloc = rt.alloc();
    let order: SortSpec = Items::from_vec(Vec::from_array(alloc, ORDER)?);
    for (at, (present, bytes)) in TUPLES.iter().enumerate() {
        assert!(rt; bytes.len() < 100);
        let left = placed(*present, bytes).ok_or("no values")?;
        for (other, (present, bytes)) in TUPLES.iter().enumerate() {
            assert!(rt; bytes.len() < 100);
            let right = placed(*present, bytes).ok_or("no values")?;
            let answer = cmp_values(order.as_slice(), &left, &right);
            assert!(rt; answer == at.cmp(&other));
            assert!(rt; answer == cmp_key(&order, &left.copy(alloc)?, &right.copy(alloc)?));
        }
    }
    Ok(())
}
