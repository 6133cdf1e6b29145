mod gathered_texts;
mod gathers;
mod large_gathers;

ghost use Rattle.std.specs.Prelude.{◌≡◌, ◌≤◌, IfOk, List, length};
ghost use Rattle.shared_tape.specs.Stored.{IsStorable};
ghost use Rattle.opclass.specs.declared.spec.SortPart.{SortPart as Part};

use opclass::{KeyList, KeyVal, SortPart, SortSpec};
use pg_bytes::{Items, RowPtr};
use shared_tape::Record;
use spool::Spool;
use std::alloc::{AllocError, Global};
use std::process::Abort;
use std::test::Fail;

const ASCENDING: SortPart = SortPart {
    descending: false,
    nulls_first: false,
};

// A record of one number, which is its offset too.
fn record(alloc: Global, offset: u16) -> Result<Record, AllocError>
    ensures { IfOk result (λ row. (order : List Part) → length order ≡ 1 → IsStorable order row) }
{
    let keys = vec![in alloc; KeyVal::Num(i64::from(offset))]?;
    Ok(Record {
        keys: KeyList::from_vec(keys),
        extra: KeyList::new(alloc),
        ptr: RowPtr { block: 0, offset },
    })
}

fn order_of_one(alloc: Global) -> Result<SortSpec, AllocError>
    ensures { IfOk result (λ order. length order ≡ 1) }
{
    Ok(Items::from_vec(vec![in alloc; ASCENDING]?))
}

fn put_all(alloc: Global, spool: &mut Spool, rows: &[u16]) -> Result<(), AllocError>
    requires { length spool.old.order ≡ 1 }
{
    for offset in rows {
        if spool.put(record(alloc, *offset)?).is_err() {
            return Err(AllocError);
        }
    }
    Ok(())
}

// That rows put in this order come in runs of at most so many, in this order.
fn assert_spooled(
    rt: &impl Abort,
    alloc: Global,
    run_rows: u32,
    rows: &[u16],
    wanted: &[&[u16]],
) -> Result<(), Fail>
    requires { 1 ≤ run_rows }
{
    let mut spool = Spool::new(alloc, run_rows, order_of_one(alloc)?);
    put_all(alloc, &mut spool, rows)?;
    let mut tape = spool.finish()?;
    for offsets in wanted {
        let mut run = tape.take_run().ok_or("too few runs")?;
        for offset in *offsets {
            assert!(rt; run.next()?.ok_or("too few records")?.ptr.offset == *offset);
        }
        assert!(rt; run.next()?.is_none());
    }
    assert!(rt; tape.take_run().is_none());
    Ok(())
}

#[test]
fn rows_come_in_bounded_sorted_runs(rt: HostRuntime) -> Result<(), Fail> {
    let alloc = rt.alloc();
    let rows = [5, 3, 9, 1, 7];
    assert_spooled(&rt, alloc, 1, &rows, &[&[5], &[3], &[9], &[1], &[7]])?;
    assert_spooled(&rt, alloc, 2, &rows, &[&[3, 5], &[1, 9], &[7]])?;
    assert_spooled(&rt, alloc, 5, &rows, &[&[1, 3, 5, 7, 9]])?;
    assert_spooled(&rt, alloc, 5, &[], &[])
}
