use crate::rows::Want::{self, Num, Raw};
use crate::rows::{is_answer, read};
use opclass::ColType::{self, Bool, Int2, Int4, Int4Array, Int8, Int8Array, Text};
use opclass::KeyList;
use std::process::Abort;
use std::test::Fail;
use test_pages::Tuple;

// A tuple without nulls, and the values of its needed columns or the cause for which there are
// none.
#[derive(Clone, Copy)]
struct Case {
    kinds: &'static [ColType],
    values: &'static [u8],
    needed: &'static [u16],
    wanted: Result<&'static [Want], u8>,
}

static CASES: [Case; 38] = [
    Case {
        // a short header stands unaligned
        kinds: &[Bool, Text],
        values: &[1, 0x05, b'a'],
        needed: &[1, 2],
        wanted: Ok(&[Num(1), Raw(b"a")]),
    },
    Case {
        // so does a long one whose first byte isn't zero
        kinds: &[Bool, Text],
        values: &[1, 0x14, 0, 0, 0, b'a'],
        needed: &[2],
        wanted: Ok(&[Raw(b"a")]),
    },
    Case {
        // a zero is padding
        kinds: &[Bool, Text],
        values: &[1, 0, 0, 0, 0x14, 0, 0, 0, b'a'],
        needed: &[2],
        wanted: Ok(&[Raw(b"a")]),
    },
    Case {
        // a short header at the aligned place behind padding
        kinds: &[Bool, Text],
        values: &[1, 0, 0, 0, 0x05, b'a'],
        needed: &[2],
        wanted: Ok(&[Raw(b"a")]),
    },
    Case {
        // a long header whose first byte is zero stands aligned
        kinds: &[Text],
        values: &LONG_TEXT,
        needed: &[1],
        wanted: Ok(&[Raw(&[b'x'; 60])]),
    },
    Case {
        // an int4[] stands at a multiple of 4, an int8[] at one of 8
        kinds: &[Int4, Int4Array, Int8Array],
        values: &TWO_ARRAYS,
        needed: &[2, 3],
        wanted: Ok(&[Want::Items(&[]), Want::Items(&[])]),
    },
    Case {
        // the shortest text
        kinds: &[Text],
        values: &[0x03],
        needed: &[1],
        wanted: Ok(&[Raw(b"")]),
    },
    Case {
        // a fixed value behind a short one is aligned
        kinds: &[Text, Int4],
        values: &[0x05, b'a', 0, 0, 42, 0, 0, 0],
        needed: &[2],
        wanted: Ok(&[Num(42)]),
    },
    Case {
        // the padding of a fixed value needn't be zero
        kinds: &[Bool, Int8],
        values: &[1, 9, 9, 9, 9, 9, 9, 9, 42, 0, 0, 0, 0, 0, 0, 0],
        needed: &[2],
        wanted: Ok(&[Num(42)]),
    },
    Case {
        // what stands behind the last needed column isn't looked at
        kinds: &[Int4, Text],
        values: &[42, 0, 0, 0],
        needed: &[1],
        wanted: Ok(&[Num(42)]),
    },
    Case {
        // no column is needed
        kinds: &[Int4],
        values: &[],
        needed: &[],
        wanted: Ok(&[]),
    },
    Case {
        // a number ends past the tuple
        kinds: &[Int4],
        values: &[1, 0, 0],
        needed: &[1],
        wanted: Err(7),
    },
    Case {
        // its padding does
        kinds: &[Bool, Int4],
        values: &[1],
        needed: &[2],
        wanted: Err(7),
    },
    Case {
        // a text has no byte
        kinds: &[Text],
        values: &[],
        needed: &[1],
        wanted: Err(7),
    },
    Case {
        // a text's padding ends past the tuple
        kinds: &[Bool, Text],
        values: &[1, 0],
        needed: &[2],
        wanted: Err(7),
    },
    Case {
        // a short text ends past the tuple
        kinds: &[Text],
        values: &[0x07, b'a'],
        needed: &[1],
        wanted: Err(7),
    },
    Case {
        // a long header ends past the tuple
        kinds: &[Text],
        values: &[0x14, 0, 0],
        needed: &[1],
        wanted: Err(7),
    },
    Case {
        // a long text ends past the tuple
        kinds: &[Text],
        values: &[0x14, 0, 0, 0],
        needed: &[1],
        wanted: Err(7),
    },
    Case {
        // a long text ends inside its header
        kinds: &[Text],
        values: &[0x0C, 0, 0, 0],
        needed: &[1],
        wanted: Err(7),
    },
    Case {
        // so does a compressed one
        kinds: &[Text],
        values: &[0x0E, 0, 0, 0],
        needed: &[1],
        wanted: Err(7),
    },
    Case {
        // a pointer's second byte is past the tuple
        kinds: &[Text],
        values: &[0x01],
        needed: &[1],
        wanted: Err(7),
    },
    Case {
        // a pointer ends past the tuple
        kinds: &[Text],
        values: &[0x01, 18, 0, 0, 0, 0, 0, 0, 0, 0, 0, 0, 0, 0, 0, 0, 0],
        needed: &[1],
        wanted: Err(7),
    },
    Case {
        // a column that isn't needed ends past the tuple
        kinds: &[Text, Int4],
        values: &[0x15, b'a', 0, 0, 42, 0, 0, 0],
        needed: &[2],
        wanted: Err(7),
    },
    Case {
        // a needed value is compressed
        kinds: &[Text],
        values: &[0x22, 0, 0, 0, 1, 2, 3, 4],
        needed: &[1],
        wanted: Err(8),
    },
    Case {
        // one that isn't needed is walked
        kinds: &[Text, Int4],
        values: &[0x22, 0, 0, 0, 1, 2, 3, 4, 42, 0, 0, 0],
        needed: &[2],
        wanted: Ok(&[Num(42)]),
    },
    Case {
        // a needed value is stored elsewhere
        kinds: &[Text],
        values: &[0x01, 18, 0, 0, 0, 0, 0, 0, 0, 0, 0, 0, 0, 0, 0, 0, 0, 0],
        needed: &[1],
        wanted: Err(9),
    },
    Case {
        // one that isn't needed has 18 bytes
        kinds: &[Text, Int2],
        values: &[
            0x01, 18, 0, 0, 0, 0, 0, 0, 0, 0, 0, 0, 0, 0, 0, 0, 0, 0, 42, 0,
        ],
        needed: &[2],
        wanted: Ok(&[Num(42)]),
    },
    Case {
        // a pointer to memory
        kinds: &[Text],
        values: &[0x01, 1, 0, 0, 0, 0, 0, 0, 0, 0],
        needed: &[1],
        wanted: Err(9),
    },
    Case {
        // the same where it isn't needed
        kinds: &[Text, Int2],
        values: &[0x01, 1, 0, 0, 0, 0, 0, 0, 0, 0, 42, 0],
        needed: &[2],
        wanted: Err(9),
    },
    Case {
        // a truth value of 2
        kinds: &[Bool],
        values: &[2],
        needed: &[1],
        wanted: Err(10),
    },
    Case {
        // the same where it isn't needed
        kinds: &[Bool, Bool],
        values: &[2, 0],
        needed: &[2],
        wanted: Ok(&[Num(0)]),
    },
    Case {
        // an int4[] of int8s
        kinds: &[Int4Array],
        values: &[0x1B, 0, 0, 0, 0, 0, 0, 0, 0, 20, 0, 0, 0],
        needed: &[1],
        wanted: Err(11),
    },
    Case {
        // the same where it isn't needed
        kinds: &[Int4Array, Bool],
        values: &[0x1B, 0, 0, 0, 0, 0, 0, 0, 0, 20, 0, 0, 0, 1],
        needed: &[2],
        wanted: Ok(&[Num(1)]),
    },
    Case {
        // a compressed array
        kinds: &[Int4Array],
        values: &[0x22, 0, 0, 0, 1, 2, 3, 4],
        needed: &[1],
        wanted: Err(8),
    },
    Case {
        // the first faulty column is told, a lesser cause behind it isn't
        kinds: &[Bool, Text],
        values: &[2, 0x22, 0, 0, 0, 1, 2, 3, 4],
        needed: &[1, 2],
        wanted: Err(10),
    },
    Case {
        // the same where the first isn't needed
        kinds: &[Bool, Text],
        values: &[2, 0x22, 0, 0, 0, 1, 2, 3],
        needed: &[2],
        wanted: Err(7),
    },
    Case {
        // a faulty column that isn't needed comes before a needed one
        kinds: &[Text, Bool],
        values: &[0x01, 1, 2],
        needed: &[2],
        wanted: Err(9),
    },
    Case {
        // a needed column before it is told first
        kinds: &[Bool, Text, Bool],
        values: &[2, 0x01, 1, 2],
        needed: &[1, 3],
        wanted: Err(10),
    },
];

// A text of 64 bytes with its header.
#[rattlefmt::skip]
const LONG_TEXT: [u8; 64] = [
    0x00, 0x01, 0x00, 0x00, b'x', b'x', b'x', b'x', b'x', b'x', b'x', b'x', b'x', b'x', b'x', b'x',
    b'x', b'x', b'x', b'x', b'x', b'x', b'x', b'x', b'x', b'x', b'x', b'x', b'x', b'x', b'x', b'x',
    b'x', b'x', b'x', b'x', b'x', b'x', b'x', b'x', b'x', b'x', b'x', b'x', b'x', b'x', b'x', b'x',
    b'x', b'x', b'x', b'x', b'x', b'x', b'x', b'x', b'x', b'x', b'x', b'x', b'x', b'x', b'x', b'x',
];

// An int4, an int4[] at 4, and an int8[] at 24.
#[rattlefmt::skip]
const TWO_ARRAYS: [u8; 40] = [
    1, 0, 0, 0, 0x40, 0, 0, 0, 0, 0, 0, 0, 0, 0, 0, 0, 23, 0, 0, 0, 0, 0, 0, 0, 0x40, 0, 0, 0, 0,
    0, 0, 0, 0, 0, 0, 0, 20, 0, 0, 0,
];

// All cases are read into one list, so that each finds there what the one before it left.
#[test]
fn reads_values_or_tells_the_cause(rt: HostRuntime) -> Result<(), Fail> {
    let mut values = KeyList::new(rt.alloc());
    for case in &CASES {
        let tuple = Tuple {
            infomask2: case.kinds.len().min(1600) as u16,
            ..Tuple::row(case.values)
        };
        let got = read(rt.alloc(), case.kinds, tuple, case.needed, &mut values)?;
        assert!(rt; is_answer(&got, &values, case.wanted));
    }
    Ok(())
}
