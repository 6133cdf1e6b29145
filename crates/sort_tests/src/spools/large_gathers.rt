ghost use Rattle.std.specs.Prelude.{◌≡◌, ◌≤◌, All, IfOk};
ghost use Rattle.opclass.specs.Values.{IsElementOf, IsValueOf};
ghost use Rattle.opclass.specs.declared.types.ColType.TheVariants.{Int4, Int4Array, Text, TextArray};
ghost use Rattle.spool.specs.Laws.{HasShortElements, IsShort};

use opclass::{Elem, KeyVal};
use pg_bytes::{Items, RowPtr};
use shared_tape::Tape;
use spool::Gather;
use std::alloc::{AllocError, Global};
use std::process::Abort;
use std::test::Fail;

const ROW: RowPtr = RowPtr {
    block: 7,
    offset: 1,
};

// The numbers 0, 1, 2 and so on, each twice.
fn twice(alloc: Global, count: u16) -> Result<KeyVal, AllocError>
    ensures typed { IfOk result (IsValueOf Int4Array) }
    ensures short { IfOk result HasShortElements }
{
    let mut elements = Vec::new(alloc);
    for number in 0..count {
        elements.push(Elem::Num(i64::from(number)))?;
        elements.push(Elem::Num(i64::from(number)))?;
    }
    Ok(KeyVal::Items(Items::from_vec(elements)))
}

fn gathered_numbers(alloc: Global, run_rows: u32, value: &KeyVal) -> Result<Tape, AllocError>
    requires some { 1 ≤ run_rows }
    requires typed { IsValueOf Int4Array value.now }
    requires short { HasShortElements value.now }
{
    let mut gather = Gather::new(alloc, run_rows);
    gather.put(value, ROW)?;
    gather.finish()
}

#[test]
fn a_row_may_have_100_000_elements(rt: HostRuntime) -> Result<(), Fail> {
    let alloc = rt.alloc();
    let tape = gathered_numbers(alloc, 20_000, &twice(alloc, 50_000)?)?;
    assert!(&rt; tape.runs() == 3);
    assert!(&rt; tape.run(0).len() == 20_000);
    assert!(&rt; tape.run(1).len() == 20_000);
    assert!(&rt; tape.run(2).len() == 10_000);
    Ok(())
}
