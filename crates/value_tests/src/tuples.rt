ghost use Rattle.std.specs.Prelude.{◌≡◌, ◌≤◌, ◌^◌, ◌<◌, ◌↔◌, IsTrue, length};
ghost use Rattle.tuple_data.specs.Data.{data_of};
ghost use Rattle.tuple_data.specs.Laws.{room_of};

use opclass::{ColType, KeyVal};
use pg_bytes::{Bytes, Items};
use std::alloc::{AllocError, Global};
use std::process::Abort;
use std::test::Fail;
use tuple_data::{data_size, has_null, has_variable, null_bits, put_data};

// What stands in the buffer before the data.
static FRONT: [u8; 3] = [0xAA, 0xBB, 0xCC];

fn raw(alloc: Global, bytes: &[u8]) -> Result<KeyVal, AllocError> {
    Ok(KeyVal::Raw(Items::from_vec(bytes.to_vec(alloc)?)))
}

fn text(alloc: Global, count: usize) -> Result<KeyVal, AllocError> {
    Ok(KeyVal::Raw(Items::from_vec(vec![in alloc; b'x'; count]?)))
}

fn is_small(value: &KeyVal) -> bool
    ensures { IsTrue result ↔ (room_of value.now ≤ 10011) }
{
    match value {
        KeyVal::Raw(bytes) => bytes.len() <= 10_000,
        _ => true,
    }
}

// The data behind the front, which stays, and the size that is told of them.
#[tactic(auto, using(tuple_data::proofs::Room::few_data))]
fn laid(
    rt: &impl Abort,
    alloc: Global,
    kinds: &[ColType],
    values: &[KeyVal],
) -> Result<Bytes, AllocError> {
    assert!(rt; values.len() <= 40 && values.iter().all(is_small));
    let mut out = FRONT.to_vec(alloc)?;
    put_data(&mut out, kinds, values)?;
    assert!(rt; out.len() >= 3 && out.starts_with(&FRONT));
    assert!(rt; data_size(kinds, values) == (out.len() - 3) as u64);
    Ok(Items::from_vec(out[3..].to_vec(alloc)?))
}

#[test]
fn values_of_each_type_have_these_bytes(rt: HostRuntime) -> Result<(), Fail> {
    let numbers: [(ColType, i64, &[u8]); 9] = [
        (ColType::Bool, 1, &[0x01]),
        (ColType::Int2, -2, &[0xFE, 0xFF]),
        (ColType::Int4, 30, &[0x1E, 0, 0, 0]),
        (
            ColType::Int8,
            -2,
            &[0xFE, 0xFF, 0xFF, 0xFF, 0xFF, 0xFF, 0xFF, 0xFF],
        ),
        (ColType::Oid, 4_294_967_295, &[0xFF, 0xFF, 0xFF, 0xFF]),
        (ColType::Date, -1, &[0xFF, 0xFF, 0xFF, 0xFF]),
        (ColType::Timestamp, 1, &[1, 0, 0, 0, 0, 0, 0, 0]),
        (
            ColType::Timestamptz,
            800_000_000_000_000,
            &[0, 0, 0xD2, 0x83, 0x98, 0xD7, 2, 0],
        ),
        (
            ColType::Time,
            86_400_000_000,
            &[0, 0x60, 0xD7, 0x1D, 0x14, 0, 0, 0],
        ),
    ];
    for (kind, number, wanted) in numbers {
        let bytes = laid(&rt, rt.alloc(), &[kind], &[KeyVal::Num(number)])?;
        assert!(rt; bytes.as_slice() == wanted);
    }
    let raws: [(ColType, &[u8], &[u8]); 4] = [
        (ColType::Uuid, b"0123456789abcdef", b"0123456789abcdef"),
        (ColType::Text, b"ann", &[0x09, 0x61, 0x6E, 0x6E]),
        (ColType::Varchar, b"", &[0x03]),
        (ColType::Bytea, &[0x00, 0xFF], &[0x07, 0x00, 0xFF]),
    ];
    for (kind, value, wanted) in raws {
        let bytes = laid(&rt, rt.alloc(), &[kind], &[raw(rt.alloc(), value)?])?;
        assert!(rt; bytes.as_slice() == wanted);
    }
    Ok(())
}

#[test]
fn long_texts_have_four_bytes_of_header(rt: HostRuntime) -> Result<(), Fail> {
    // how long the text is, where its data end, and how they begin
    let cases: [(usize, u64, &[u8]); 4] = [
        (0, 1, &[0x03]),
        (126, 127, &[0xFF, b'x']),
        (127, 131, &[0x0C, 0x02, 0x00, 0x00, b'x']),
        (2692, 2696, &[0x20, 0x2A, 0x00, 0x00, b'x']),
    ];
    for (count, size, head) in cases {
        let bytes = laid(
            &rt,
            rt.alloc(),
            &[ColType::Text],
            &[text(rt.alloc(), count)?],
        )?;
        assert!(rt; bytes.len() as u64 == size);
        assert!(rt; bytes.as_slice().starts_with(head));
    }
    Ok(())
}

#[test]
fn values_stand_at_their_alignment(rt: HostRuntime) -> Result<(), Fail> {
    use ColType::{Bool, Int2, Int4, Int8, Text, Uuid};
    use KeyVal::{Nil, Num};

    let alloc = rt.alloc();
    let two = laid(&rt, alloc, &[Bool, Int4], &[Num(1), Num(7)])?;
    assert!(rt; two.as_slice() == [1, 0, 0, 0, 7, 0, 0, 0].as_slice());

    let values = [Num(5), raw(alloc, b"ab")?, Num(6)];
    let short = laid(&rt, alloc, &[Int2, Text, Int8], &values)?;
    let wanted = [5, 0, 7, b'a', b'b', 0, 0, 0, 6, 0, 0, 0, 0, 0, 0, 0];
    assert!(rt; short.as_slice() == wanted.as_slice());

    let values = [raw(alloc, b"a")?, text(alloc, 127)?];
    let long = laid(&rt, alloc, &[Text, Text], &values)?;
    assert!(rt; long.len() == 135);
    assert!(rt;
        long.as_slice()
            .starts_with(&[5, b'a', 0, 0, 0x0C, 2, 0, 0, b'x'])
    );

    let values = [Num(1), raw(alloc, b"0123456789abcdef")?, Num(0)];
    let unaligned = laid(&rt, alloc, &[Bool, Uuid, Bool], &values)?;
    assert!(rt; unaligned.as_slice() == b"\x010123456789abcdef\x00".as_slice());

    let nulls = laid(&rt, alloc, &[Int4, Int8, Int2], &[Num(1), Nil, Num(2)])?;
    assert!(rt; nulls.as_slice() == [1, 0, 0, 0, 2, 0].as_slice());
    assert!(rt; laid(&rt, alloc, &[Int8, Text], &[Nil, Nil])?.len() == 0);

    let values = [text(alloc, 4069)?, text(alloc, 4071)?];
    assert!(rt; laid(&rt, alloc, &[Text, Text], &values)?.len() == 8151);
    Ok(())
}

// So many ones, with a null at a place.
fn ones(alloc: Global, count: usize, null: usize) -> Result<Vec<KeyVal>, AllocError> {
    let mut values = Vec::new(alloc);
    for at in 0..count {
        let value = if at == null {
            KeyVal::Nil
        } else {
            KeyVal::Num(1)
        };
        values.push(value)?;
    }
    Ok(values)
}

#[test]
fn headers_tell_of_nulls_and_variable_values(rt: HostRuntime) -> Result<(), Fail> {
    use ColType::{Int4, Text};
    use KeyVal::{Nil, Num};

    let alloc = rt.alloc();
    assert!(rt; !has_null(&[]) && !has_null(&[Num(0)]) && has_null(&[Num(0), Nil]));
    assert!(rt; !has_variable(&[Int4, Text], &[Num(1), Nil]));
    assert!(rt; has_variable(&[Int4, Text], &[Nil, raw(alloc, b"")?]));

    // how many ones, the place of a null among them, and the bits
    let cases = [
        (3, 0, 0b110),
        (3, 1, 0b101),
        (32, 0, 0xFFFF_FFFE),
        (32, 31, 0x7FFF_FFFF),
        (32, 32, 0xFFFF_FFFF),
        (0, 0, 0),
    ];
    for (count, null, wanted) in cases {
        let values = ones(alloc, count, null)?;
        assert!(rt; values.len() <= 32);
        assert!(rt; null_bits(&values) == wanted);
    }
    assert!(rt; null_bits(&[Nil, Nil, Nil]) == 0);
    Ok(())
}
