ghost use Rattle.std.specs.Prelude.{◌≡◌, ◌<◌, ◌≤◌, All, IfOk, IsTrue, length, sum_by};
ghost use Rattle.opclass.specs.Norm.{IsKeyValue};
ghost use Rattle.shared_tape.specs.Laws.{value_room};
ghost use Rattle.shared_tape.specs.Stored.{IsStorable};

use opclass::{KeyList, KeyVal, SortPart, SortSpec, cmp_key};
use pg_bytes::{Items, RowPtr};
use shared_tape::{Record, Run, Tape};
use std::alloc::{AllocError, Global};
use std::process::Abort;
use std::test::Fail;

const ASCENDING: SortPart = SortPart {
    descending: false,
    nulls_first: false,
};

const DESCENDING: SortPart = SortPart {
    descending: true,
    nulls_first: true,
};

const NULLS_FIRST: SortPart = SortPart {
    descending: false,
    nulls_first: true,
};

// A value of these tests.
#[derive(Clone, Copy, Debug)]
enum Value {
    Null,
    Num(i64),
    Text(&'static [u8]),
}

use Value::{Null, Num, Text};

// A record of these tests.
#[derive(Clone, Copy, Debug)]
struct Row {
    keys: &'static [Value],
    extra: &'static [Value],
    block: u32,
    offset: u16,
}

const fn at(block: u32, offset: u16, keys: &'static [Value]) -> Row {
    Row {
        keys,
        extra: &[],
        block,
        offset,
    }
}

fn values(alloc: Global, from: &[Value]) -> Result<KeyList, AllocError> {
    let mut values = Vec::new(alloc);
    for value in from {
        values.push(key(alloc, *value)?)?;
    }
    Ok(KeyList::from_vec(values))
}

fn key(alloc: Global, value: Value) -> Result<KeyVal, AllocError> {
    match value {
        Null => Ok(KeyVal::Nil),
        Num(number) => Ok(KeyVal::Num(number)),
        Text(bytes) => Ok(KeyVal::Raw(Items::from_vec(bytes.to_vec(alloc)?))),
    }
}

fn records(alloc: Global, from: &[Row]) -> Result<Vec<Record>, AllocError> {
    let mut records = Vec::new(alloc);
    for row in from {
        records.push(Record {
            keys: values(alloc, row.keys)?,
            extra: values(alloc, row.extra)?,
            ptr: RowPtr {
                block: row.block,
                offset: row.offset,
            },
        })?;
    }
    Ok(records)
}

fn order_of(alloc: Global, parts: &[SortPart]) -> Result<SortSpec, AllocError> {
    Ok(Items::from_vec(parts.to_vec(alloc)?))
}

// Whether a record is one that a run takes, as each record of these tests is: it has one key for
// each column, and its values are few and short.
fn is_small(order: &SortSpec, row: &Record) -> bool
    ensures { IsTrue result → IsStorable order.now row.now }
{
    let _block = row.ptr.block;
    let _offset = row.ptr.offset;
    if row.keys.len() != order.len() || !are_small(row.keys.as_slice()) {
        return false;
    }
    are_small(row.extra.as_slice())
}

fn are_small(values: &[KeyVal]) -> bool
    ensures values { IsTrue result → All IsKeyValue values.now }
    ensures short { IsTrue result → sum_by value_room values.now ≤ 100000 }
{
    for value in values {
        if !is_small_value(value) {
            return false;
        }
    }
    values.len() <= 10
}

fn is_small_value(value: &KeyVal) -> bool
    ensures value { IsTrue result → IsKeyValue value.now }
    ensures short { IsTrue result → value_room value.now ≤ 10000 }
{
    match value {
        KeyVal::Nil => true,
        KeyVal::Num(number) => {
            let _number = *number;
            true
        }
        KeyVal::Raw(bytes) => is_short(bytes.as_slice()),
        KeyVal::Items(_) => false,
    }
}

fn is_short(bytes: &[u8]) -> bool
    ensures bytes { All (λ byte. byte < 256) bytes.now }
    ensures short { IsTrue result → length bytes.now ≤ 1000 }
{
    bytes.len() <= 1000
}

// The run of records, each of which has to be small.
fn run_of(alloc: Global, order: &SortSpec, rows: Vec<Record>) -> Result<Run, AllocError>
    ensures { IfOk result (λ run. run.order ≡ order.now) }
{
    for row in &rows {
        if !is_small(order, row) {
            return Err(AllocError);
        }
    }
    Run::build(alloc, rows, order)
}

// The same run, record by record.
fn copy_of(alloc: Global, run: &Run, order: &SortSpec) -> Result<Run, AllocError>
    requires { run.now.order ≡ order.now }
    ensures { IfOk result (λ copy. copy ≡ run.now) }
{
    let mut copy = Run::empty(alloc, order)?;
    for at in 0..run.len() {
        copy.append_from(run, at)?;
    }
    Ok(copy)
}

#[test]
fn records_have_their_order_bytes(rt: HostRuntime) -> Result<(), Fail> {
    let alloc = rt.alloc();
    let cases: [(&[SortPart], &'static [Value], &[u8], u128); 4] = [
        (
            &[ASCENDING],
            &[Num(5)],
            &[1, 0x80, 0, 0, 0, 0, 0, 0, 5, 0, 0, 0, 1, 0, 2],
            0x0180_0000_0000_0000_0500_0000_0100_0200,
        ),
        (
            &[DESCENDING],
            &[Num(-2)],
            &[1, 0x80, 0, 0, 0, 0, 0, 0, 1, 0, 0, 0, 1, 0, 2],
            0x0180_0000_0000_0000_0100_0000_0100_0200,
        ),
        (
            &[NULLS_FIRST],
            &[Null],
            &[0, 0, 0, 0, 1, 0, 2],
            0x0000_0000_0100_0200_0000_0000_0000_0000,
        ),
        (
            &[ASCENDING, DESCENDING],
            &[Null, Text(b"a\0b aaaaaaaa")],
            &[
                3, 2, 0x9E, 0xFF, 0, 0x9D, 0xDF, 0x9E, 0x9E, 0x9E, 0x9E, 0x9E, 0x9E, 0x9E, 0x9E,
                0xFF, 0xFF, 0, 0, 0, 1, 0, 2,
            ],
            0x0302_9EFF_009D_DF9E_9E9E_9E9E_9E9E_9EFF,
        ),
    ];
    for (parts, keys, bytes, head) in cases {
        let order = order_of(alloc, parts)?;
        let run = run_of(alloc, &order, records(alloc, &[at(1, 2, keys)])?)?;
        assert!(rt; run.len() == 1);
        assert!(rt; run.order_at(0) == bytes);
        assert!(rt; run.head_at(0) == head);
        assert!(rt; run.peek().ok_or("empty")? == bytes);
    }
    Ok(())
}

#[test]
fn runs_ascend_by_key_and_row(rt: HostRuntime) -> Result<(), Fail> {
    let alloc = rt.alloc();
    let numbers = &[
        at(0, 1, &[Num(3)]),
        at(0, 2, &[Num(-1)]),
        at(0, 3, &[Null]),
        at(0, 4, &[Num(0)]),
    ];
    let all_equal = &[
        at(2, 1, &[Num(5)]),
        at(1, 9, &[Num(5)]),
        at(1, 2, &[Num(5)]),
    ];
    let alike_in_front = &[
        at(0, 1, &[Text(b"aaaaaaaaaaaaaaaaaaaab")]),
        at(0, 2, &[Text(b"aaaaaaaaaaaaaaaaaaaaa")]),
        at(0, 3, &[Text(b"aaaaaaaaaaaaaaaaaaaa")]),
    ];
    let zeros = &[
        at(0, 1, &[Text(b"a\0")]),
        at(0, 2, &[Text(b"a")]),
        at(0, 3, &[Text(b"a\0\0")]),
        at(0, 4, &[Text(b"a\x01")]),
    ];
    let cases: [(SortPart, &[Row], &[u16]); 6] = [
        (ASCENDING, numbers, &[2, 4, 1, 3]),
        (DESCENDING, numbers, &[3, 1, 4, 2]),
        (ASCENDING, all_equal, &[2, 9, 1]),
        (ASCENDING, alike_in_front, &[3, 2, 1]),
        (ASCENDING, zeros, &[2, 1, 3, 4]),
        (ASCENDING, &[], &[]),
    ];
    for (part, rows, wanted) in cases {
        let order = order_of(alloc, &[part])?;
        let run = run_of(alloc, &order, records(alloc, rows)?)?;
        let copy = copy_of(alloc, &run, &order)?;
        assert_offsets(&rt, run, wanted)?;
        assert_offsets(&rt, copy, wanted)?;
    }
    Ok(())
}

// That a run gives records with these offsets and then no more.
fn assert_offsets(rt: &impl Abort, mut run: Run, wanted: &[u16]) -> Result<(), Fail> {
    for offset in wanted {
        let next = run.next()?.ok_or("too few records")?;
        assert!(rt; next.ptr.offset == *offset);
    }
    assert!(rt; run.peek().is_none());
    assert!(rt; run.next()?.is_none());
    Ok(())
}

#[test]
fn values_are_read_back(rt: HostRuntime) -> Result<(), Fail> {
    let alloc = rt.alloc();
    let row = Row {
        keys: &[Num(i64::MIN), Text(b"a\0b"), Null],
        extra: &[Num(-7), Text(b"\0\xFF"), Null, Text(b"")],
        block: u32::MAX,
        offset: u16::MAX,
    };
    let order = order_of(alloc, &[DESCENDING, ASCENDING, NULLS_FIRST])?;
    let run = run_of(alloc, &order, records(alloc, &[row])?)?;
    assert!(rt; run.len() == 1);
    let read = run.read_at(0)?;
    let keys = values(alloc, row.keys)?;
    let extra = values(alloc, row.extra)?;
    assert!(rt; cmp_key(&order, &read.keys, &keys).is_eq());
    assert!(rt; cmp_key(&order, &read.extra, &extra).is_eq());
    assert!(rt;
        read.ptr
            == RowPtr {
                block: row.block,
                offset: row.offset
            }
    );
    Ok(())
}

#[test]
fn a_record_is_filled_anew(rt: HostRuntime) -> Result<(), Fail> {
    let alloc = rt.alloc();
    let rows = &[
        at(0, 1, &[Num(1), Text(b"a longer text")]),
        Row {
            extra: &[Text(b"one"), Num(7), Text(b"three")],
            ..at(0, 2, &[Num(2), Null])
        },
        at(0, 3, &[Null, Null]),
        Row {
            extra: &[Null, Text(b"two")],
            ..at(0, 4, &[Null, Text(b"a\0b")])
        },
    ];
    let order = order_of(alloc, &[ASCENDING, DESCENDING])?;
    let run = run_of(alloc, &order, records(alloc, rows)?)?;
    assert!(rt; run.len() == rows.len());
    let mut read = Record::new(alloc);
    for (place, row) in rows.iter().enumerate() {
        run.read_into(place, &mut read)?;
        let keys = values(alloc, row.keys)?;
        let extra = values(alloc, row.extra)?;
        assert!(rt; cmp_key(&order, &read.keys, &keys).is_eq());
        assert!(rt; cmp_key(&order, &read.extra, &extra).is_eq());
        assert!(rt; read.ptr.offset == row.offset);
    }
    Ok(())
}

#[test]
fn tapes_give_their_runs_in_order(rt: HostRuntime) -> Result<(), Fail> {
    let alloc = rt.alloc();
    let order = order_of(alloc, &[ASCENDING])?;
    let mut tape = Tape::new(alloc);
    assert!(rt; tape.take_run().is_none());
    assert!(rt; tape.records() == 0);
    let rows = records(alloc, &[at(0, 1, &[Num(1)])])?;
    assert!(rt; tape.append_run(run_of(alloc, &order, rows)?).is_ok());
    assert!(rt; tape.append_run(Run::empty(alloc, &order)?).is_ok());
    assert!(rt; tape.runs() == 2);
    assert!(rt; tape.run(0).len() == 1);
    assert!(rt; tape.run(1).len() == 0);
    assert!(rt; tape.take_run().ok_or("no run")?.len() == 1);
    assert!(rt; tape.take_run().ok_or("no run")?.len() == 0);
    assert!(rt; tape.take_run().is_none());
    Ok(())
}
