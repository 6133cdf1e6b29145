use crate::rows::Want::{self, Null, Num, Raw};
use crate::rows::{is_answer, read};
use opclass::ColType::{self, Int4Array, Int8Array, TextArray};
use opclass::KeyList;
use std::alloc::{AllocError, Global};
use std::process::Abort;
use std::test::Fail;
use test_pages::Tuple;

// An array: its fields and elements as words, then the bytes behind these.
#[derive(Clone, Copy)]
struct ArrayCase {
    kind: ColType,
    words: &'static [i32],
    tail: &'static [u8],
    wanted: Option<&'static [Want]>,
}

const ONE: &[Want] = &[Num(1)];

static ARRAYS: [ArrayCase; 34] = [
    ArrayCase {
        // three elements
        kind: Int4Array,
        words: &[1, 0, 23, 3, 1, 1, -2, 3],
        tail: &[],
        wanted: Some(&[Num(1), Num(-2), Num(3)]),
    },
    ArrayCase {
        // two dimensions, with lower bounds of their own
        kind: Int4Array,
        words: &[2, 0, 23, 2, 2, 5, -3, 1, 2, 3, 4],
        tail: &[],
        wanted: Some(&[Num(1), Num(2), Num(3), Num(4)]),
    },
    ArrayCase {
        // bytes behind the last element
        kind: Int4Array,
        words: &[1, 0, 23, 1, 1, 1, 9],
        tail: &[9],
        wanted: Some(ONE),
    },
    ArrayCase {
        // no dimension
        kind: Int4Array,
        words: &[0, 0, 23],
        tail: &[],
        wanted: Some(&[]),
    },
    ArrayCase {
        // no dimension, of which no more is asked
        kind: TextArray,
        words: &[0, -1, 25],
        tail: &[],
        wanted: Some(&[]),
    },
    ArrayCase {
        // a dimension of 0
        kind: Int4Array,
        words: &[2, 0, 23, 0, 5, 1, 1],
        tail: &[],
        wanted: Some(&[]),
    },
    ArrayCase {
        // a dimension of 0 behind huge ones
        kind: Int4Array,
        words: &[
            5,
            0,
            23,
            i32::MAX,
            i32::MAX,
            i32::MAX,
            i32::MAX,
            0,
            1,
            1,
            1,
            1,
            1,
        ],
        tail: &[],
        wanted: Some(&[]),
    },
    ArrayCase {
        // a null among int4s
        kind: Int4Array,
        words: &[1, 32, 23, 3, 1],
        tail: &[0b101, 0, 0, 0, 0, 0, 0, 0, 1, 0, 0, 0, 3, 0, 0, 0],
        wanted: Some(&[Num(1), Null, Num(3)]),
    },
    ArrayCase {
        // a dataoffset that isn't aligned
        kind: Int4Array,
        words: &[1, 25, 23, 1, 1],
        tail: &[0b1, 9, 9, 9, 1, 0, 0, 0],
        wanted: Some(ONE),
    },
    ArrayCase {
        // the same of an int8[]
        kind: Int8Array,
        words: &[1, 25, 20, 1, 1],
        tail: &[0b1, 9, 9, 9, 9, 9, 9, 9, 1, 0, 0, 0, 0, 0, 0, 0],
        wanted: Some(ONE),
    },
    ArrayCase {
        // nine elements, of which the last is there
        kind: Int4Array,
        words: &[1, 28, 23, 9, 1],
        tail: &[0, 0b1, 0, 0, 1, 0, 0, 0],
        wanted: Some(&[Null, Null, Null, Null, Null, Null, Null, Null, Num(1)]),
    },
    ArrayCase {
        // nulls alone, whose dataoffset is past the end
        kind: Int4Array,
        words: &[1, 1000, 23, 2, 1],
        tail: &[0],
        wanted: Some(&[Null, Null]),
    },
    ArrayCase {
        // int8s
        kind: Int8Array,
        words: &[1, 0, 20, 2, 1, 1, 0, -1, -1],
        tail: &[],
        wanted: Some(&[Num(1), Num(-1)]),
    },
    ArrayCase {
        // texts under short and long headers, each at a multiple of 4
        kind: TextArray,
        words: &[1, 0, 25, 3, 1],
        tail: &[
            7, b'a', b'b', 0, 0x1C, 0, 0, 0, b'c', b'd', b'e', 0, 5, b'f',
        ],
        wanted: Some(&[Raw(b"ab"), Raw(b"cde"), Raw(b"f")]),
    },
    ArrayCase {
        // a null among texts
        kind: TextArray,
        words: &[1, 28, 25, 2, 1],
        tail: &[0b10, 0, 0, 0, 3],
        wanted: Some(&[Null, Raw(b"")]),
    },
    ArrayCase {
        // fewer than 16 bytes
        kind: Int4Array,
        words: &[0, 0],
        tail: &[23, 0, 0],
        wanted: None,
    },
    ArrayCase {
        // seven dimensions
        kind: Int4Array,
        words: &[7, 0, 23, 1, 1, 1, 1, 1, 1, 1, 1, 1, 1, 1, 1, 1, 1, 1],
        tail: &[],
        wanted: None,
    },
    ArrayCase {
        // less than no dimension
        kind: Int4Array,
        words: &[-1, 0, 23],
        tail: &[],
        wanted: None,
    },
    ArrayCase {
        // elements of another type
        kind: TextArray,
        words: &[0, 0, 1043],
        tail: &[],
        wanted: None,
    },
    ArrayCase {
        // a negative dimension
        kind: Int4Array,
        words: &[1, 0, 23, -1, 1],
        tail: &[],
        wanted: None,
    },
    ArrayCase {
        // a negative dimension beside a 0
        kind: Int4Array,
        words: &[2, 0, 23, 0, -1, 1, 1],
        tail: &[],
        wanted: None,
    },
    ArrayCase {
        // too many elements
        kind: Int4Array,
        words: &[1, 24, 23, 134_217_728, 1],
        tail: &[],
        wanted: None,
    },
    ArrayCase {
        // so many that a word doesn't count them
        kind: Int4Array,
        words: &[4, 0, 23, 1 << 16, 1 << 16, 1 << 16, 1 << 16, 1, 1, 1, 1],
        tail: &[],
        wanted: None,
    },
    ArrayCase {
        // as many as there may be, which aren't there
        kind: Int4Array,
        words: &[1, 0, 23, 134_217_727, 1, 1],
        tail: &[],
        wanted: None,
    },
    ArrayCase {
        // lower bounds past the end
        kind: Int4Array,
        words: &[1, 0, 23, 0],
        tail: &[1, 0, 0],
        wanted: None,
    },
    ArrayCase {
        // a bitmap past dataoffset
        kind: Int4Array,
        words: &[1, 24, 23, 1, 1, 1],
        tail: &[],
        wanted: None,
    },
    ArrayCase {
        // a bitmap past the end
        kind: Int4Array,
        words: &[1, 100, 23, 9, 1],
        tail: &[0],
        wanted: None,
    },
    ArrayCase {
        // a negative dataoffset
        kind: Int4Array,
        words: &[1, -1, 23, 1, 1],
        tail: &[0],
        wanted: None,
    },
    ArrayCase {
        // an element past the end
        kind: Int4Array,
        words: &[1, 0, 23, 2, 1, 1],
        tail: &[2, 0, 0],
        wanted: None,
    },
    ArrayCase {
        // a text past the end
        kind: TextArray,
        words: &[1, 0, 25, 1, 1],
        tail: &[9, b'a', b'b'],
        wanted: None,
    },
    ArrayCase {
        // a text's header past the end
        kind: TextArray,
        words: &[1, 0, 25, 1, 1],
        tail: &[0x14, 0, 0],
        wanted: None,
    },
    ArrayCase {
        // a text that ends inside its header
        kind: TextArray,
        words: &[1, 0, 25, 1, 1],
        tail: &[0x0C, 0, 0, 0],
        wanted: None,
    },
    ArrayCase {
        // a compressed text
        kind: TextArray,
        words: &[1, 0, 25, 1, 1],
        tail: &[0x22, 0, 0, 0, 1, 2, 3, 4],
        wanted: None,
    },
    ArrayCase {
        // a text that is stored elsewhere
        kind: TextArray,
        words: &[1, 0, 25, 1, 1],
        tail: &[1, 18, 0, 0, 0, 0, 0, 0, 0, 0, 0, 0, 0, 0, 0, 0, 0, 0],
        wanted: None,
    },
];

// The bytes of an array behind its header.
fn array_of(alloc: Global, case: &ArrayCase) -> Result<Vec<u8>, AllocError> {
    let mut content = Vec::new(alloc);
    for word in case.words {
        content.extend_from_slice(&word.to_le_bytes())?;
    }
    content.extend_from_slice(case.tail)?;
    Ok(content)
}

// A value with its header in front, which is short or long.
fn value_of(alloc: Global, content: &[u8], short: bool) -> Result<Vec<u8>, AllocError> {
    let mut value = Vec::new(alloc);
    let length = content.len().min(120) as u32;
    if short {
        value.push((length as u8 + 1) * 2 + 1)?;
    } else {
        value.extend_from_slice(&((length + 4) * 4).to_le_bytes())?;
    }
    value.extend_from_slice(content)?;
    Ok(value)
}

#[test]
fn reads_arrays_or_tells_cause_11(rt: HostRuntime) -> Result<(), Fail> {
    let alloc = rt.alloc();
    let mut values = KeyList::new(alloc);
    for case in &ARRAYS {
        let content = array_of(alloc, case)?;
        for short in [true, false] {
            let value = value_of(alloc, &content, short)?;
            let got = read(alloc, &[case.kind], Tuple::row(&value), &[1], &mut values)?;
            let is_wanted = match (&got, case.wanted) {
                (Ok(()), Some(elements)) => {
                    is_answer(&got, &values, Ok(&[Want::Items(elements)]))
                }
                (Err(_), None) => is_answer(&got, &values, Err(11)),
                _ => false,
            };
            assert!(rt; is_wanted);
        }
    }
    Ok(())
}
