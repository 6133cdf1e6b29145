ghost use Rattle.std.specs.Prelude.{◌≡◌, IfOk};
ghost use Rattle.opclass.specs.Values.{IsElementOf, IsValueOf};
ghost use Rattle.opclass.specs.declared.types.ColType.TheVariants.{Text, TextArray};
ghost use Rattle.spool.specs.Laws.{HasShortElements, IsShort};

use opclass::{Elem, KeyVal};
use pg_bytes::{Items, RowPtr};
use shared_tape::{Record, Tape};
use spool::Gather;
use std::alloc::{AllocError, Global};
use std::test::Fail;

// A text of two bytes, or None for a null.
type Given = Option<[u8; 2]>;

fn text(alloc: Global, given: Given) -> Result<Elem, AllocError>
    ensures typed { IfOk result (IsElementOf Text) }
    ensures short { IfOk result IsShort }
{
    match given {
        None => Ok(Elem::Null),
        Some(bytes) => Ok(Elem::Raw(Items::from_vec(Vec::from_slice(alloc, &bytes)?))),
    }
}

fn texts(alloc: Global, given: &[Given]) -> Result<KeyVal, AllocError>
    ensures typed { IfOk result (IsValueOf TextArray) }
    ensures short { IfOk result HasShortElements }
{
    let mut elements = Vec::new(alloc);
    for each in given {
        elements.push(text(alloc, *each)?)?;
    }
    Ok(KeyVal::Items(Items::from_vec(elements)))
}

fn gathered(alloc: Global, value: &KeyVal) -> Result<Tape, AllocError>
    requires typed { IsValueOf TextArray value.now }
    requires short { HasShortElements value.now }
{
    let mut gather = Gather::new(alloc, 10);
    gather.put(
        value,
        RowPtr {
            block: 0,
            offset: 1,
        },
    )?;
    gather.finish()
}

fn is_wanted(row: &Record, wanted: Given) -> bool {
    match (row.keys.as_slice(), wanted) {
        ([KeyVal::Num(1), KeyVal::Nil], None) => true,
        ([KeyVal::Nil, KeyVal::Raw(bytes)], Some(text)) => bytes.as_slice() == text.as_slice(),
        _ => false,
    }
}

// The texts of a row, and those of its records: by their bytes, a null last.
static GIVEN: [Given; 6] = [
    Some(*b"ba"),
    Some(*b"ab"),
    None,
    Some([0, 1]),
    Some([0x80, 0]),
    Some(*b"ba"),
];

static WANTED: [Given; 5] = [
    Some([0, 1]),
    Some(*b"ab"),
    Some(*b"ba"),
    Some([0x80, 0]),
    None,
];

#[test]
fn texts_come_once_by_their_bytes(rt: HostRuntime) -> Result<(), Fail> {
    let alloc = rt.alloc();
    let mut tape = gathered(alloc, &texts(alloc, &GIVEN)?)?;
    let mut run = tape.take_run().ok_or("no run")?;
    for wanted in &WANTED {
        let row = run.next()?.ok_or("too few records")?;
        assert!(&rt; is_wanted(&row, *wanted));
    }
    assert!(&rt; run.next()?.is_none());
    Ok(())
}
