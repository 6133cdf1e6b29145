ghost use Rattle.std.specs.Prelude.{◌≡◌, ◌≤◌, ◌∷◌, ◌++◌, [], IfOk, OnOk};
ghost use Rattle.shared_tape.specs.Stored.{IsStorable};
ghost use Rattle.run_merge.specs.Sorted.{AllHaveOrder, HaveOrder};

use opclass::{KeyList, KeyVal, SortPart, SortSpec};
use pg_bytes::{Items, RowPtr};
use run_merge::{Cuts, Merged, cut_points, key_cuts, merge, merge_part, merge_range};
use shared_tape::{Record, Run, Tape, Tapes};
use std::alloc::{AllocError, Global};
use std::process::Abort;
use std::test::Fail;

const ASCENDING: SortPart = SortPart {
    descending: false,
    nulls_first: false,
};

const DESCENDING: SortPart = SortPart {
    descending: true,
    nulls_first: true,
};

// A row: its key, and its row pointer.
type Row = (Option<i64>, u32, u16);

fn order_of(alloc: Global, part: SortPart) -> Result<SortSpec, AllocError>
    ensures { IfOk result (λ order. order ≡ part ∷ []) }
{
    Ok(Items::from_vec(Vec::from_array(alloc, [part])?))
}

fn one_key(alloc: Global, key: KeyVal) -> Result<KeyList, AllocError>
    ensures { IfOk result (λ keys. keys ≡ key ∷ []) }
{
    let mut keys = Vec::new(alloc);
    keys.push(key)?;
    Ok(KeyList::from_vec(keys))
}

fn number_row(alloc: Global, part: SortPart, number: i64, ptr: RowPtr) -> Result<Record, AllocError>
    ensures { IfOk result (IsStorable (part ∷ [])) }
{
    Ok(Record {
        keys: one_key(alloc, KeyVal::Num(number))?,
        extra: KeyList::new(alloc),
        ptr,
    })
}

fn null_row(alloc: Global, part: SortPart, ptr: RowPtr) -> Result<Record, AllocError>
    ensures { IfOk result (IsStorable (part ∷ [])) }
{
    Ok(Record {
        keys: one_key(alloc, KeyVal::Nil)?,
        extra: KeyList::new(alloc),
        ptr,
    })
}

fn record_of(alloc: Global, part: SortPart, row: Row) -> Result<Record, AllocError>
    ensures { IfOk result (IsStorable (part ∷ [])) }
{
    let (key, block, offset) = row;
    let ptr = RowPtr { block, offset };
    match key {
        Some(number) => number_row(alloc, part, number, ptr),
        None => null_row(alloc, part, ptr),
    }
}

fn run_of(alloc: Global, part: SortPart, rows: &[Row]) -> Result<Run, AllocError>
    ensures { IfOk result (λ run. run.order ≡ part ∷ []) }
{
    let mut records = Vec::new(alloc);
    for row in rows {
        records.push(record_of(alloc, part, *row)?)?;
    }
    Run::build(alloc, records, &order_of(alloc, part)?)
}

fn put_run(tape: &mut Tape, run: Run) -> Result<(), AllocError>
    ensures { OnOk result (tape.new ≡ tape.old ++ run ∷ []) }
{
    tape.append_run(run).map_err(|_| AllocError)
}

// A tape of runs of these rows.
fn tape_of(alloc: Global, part: SortPart, runs: &[&[Row]]) -> Result<Tape, AllocError>
    ensures { IfOk result (HaveOrder (part ∷ [])) }
{
    let mut tape = Tape::new(alloc);
    for rows in runs {
        put_run(&mut tape, run_of(alloc, part, rows)?)?;
    }
    Ok(tape)
}

fn tapes_of(alloc: Global, part: SortPart, tapes: &[&[&[Row]]]) -> Result<Tapes, AllocError>
    ensures { IfOk result (AllHaveOrder (part ∷ [])) }
{
    let mut list = Tapes::new(alloc);
    for runs in tapes {
        if list.push(tape_of(alloc, part, runs)?).is_err() {
            return Err(AllocError);
        }
    }
    Ok(list)
}

fn row_of(record: &Record) -> Row {
    let key = match record.keys.as_slice() {
        [KeyVal::Num(number)] => Some(*number),
        _ => None,
    };
    (key, record.ptr.block, record.ptr.offset)
}

// That a merge gives these rows and then none, whether each has a record of its own or not.
fn assert_gives(
    rt: &impl Abort,
    alloc: Global,
    mut merged: Merged,
    wanted: &[Row],
) -> Result<(), Fail> {
    let mut kept = Record::new(alloc);
    for (place, row) in wanted.iter().enumerate() {
        if place % 3 == 0 {
            let record = merged.next()?.ok_or("too few")?;
            assert!(rt; row_of(&record) == *row);
        } else {
            assert!(rt; merged.next_into(&mut kept)?);
            assert!(rt; row_of(&kept) == *row);
        }
    }
    assert!(rt; merged.next()?.is_none());
    assert!(rt; !merged.next_into(&mut kept)?);
    Ok(())
}

// That the parts between these cuts, one after the other, are these rows, as runs and as they are
// merged.
fn assert_between(
    rt: &impl Abort,
    alloc: Global,
    tapes: &Tapes,
    cuts: &Cuts,
    order: &SortSpec,
    wanted: &[Row],
) -> Result<(), Fail>
    requires { AllHaveOrder order.now tapes.now }
{
    let mut left = wanted.iter();
    let mut kept = Record::new(alloc);
    for number in 0..=cuts.len() {
        let mut run = merge_range(alloc, tapes, cuts, number, order)?;
        let mut part = merge_part(alloc, tapes, cuts, number, order)?;
        for _ in 0..run.len() {
            let record = run.next()?.ok_or("too few")?;
            assert!(rt; Some(row_of(&record)) == left.next().copied());
            assert!(rt; part.next_into(&mut kept)?);
            assert!(rt; row_of(&kept) == row_of(&record));
        }
        assert!(rt; !part.next_into(&mut kept)?);
    }
    assert!(rt; left.next().is_none());
    Ok(())
}

// That the parts of so many are these rows, whichever cuts part them.
fn assert_parts(
    rt: &impl Abort,
    alloc: Global,
    tapes: &Tapes,
    part: SortPart,
    parts: u32,
    wanted: &[Row],
) -> Result<(), Fail>
    requires some { 1 ≤ parts }
    requires few { parts ≤ 32 }
    requires order { AllHaveOrder (part ∷ []) tapes.now }
{
    let order = order_of(alloc, part)?;
    let cuts = cut_points(alloc, tapes, parts, &order)?;
    assert_between(rt, alloc, tapes, &cuts, &order, wanted)?;
    let by_keys = key_cuts(alloc, tapes, parts, &order)?;
    assert_between(rt, alloc, tapes, &by_keys, &order, wanted)
}

// That these tapes merge to these rows, at once and in parts.
fn assert_merges(
    rt: &impl Abort,
    alloc: Global,
    part: SortPart,
    tapes: &[&[&[Row]]],
    wanted: &[Row],
) -> Result<(), Fail> {
    let list = tapes_of(alloc, part, tapes)?;
    let order = order_of(alloc, part)?;
    assert_between(rt, alloc, &list, &Cuts::none(alloc), &order, wanted)?;
    assert_parts(rt, alloc, &list, part, 1, wanted)?;
    assert_parts(rt, alloc, &list, part, 2, wanted)?;
    assert_parts(rt, alloc, &list, part, 31, wanted)?;
    assert_parts(rt, alloc, &list, part, 32, wanted)?;
    let merged = merge(alloc, list, order)?;
    assert_gives(rt, alloc, merged, wanted)
}

#[test]
fn runs_merge_in_order(rt: HostRuntime) -> Result<(), Fail> {
    let alloc = rt.alloc();
    assert_merges(&rt, alloc, ASCENDING, &[], &[])?;
    assert_merges(&rt, alloc, ASCENDING, &[&[], &[&[]]], &[])?;
    let one_each: &[&[&[Row]]] = &[
        &[&[(Some(30), 0, 1)], &[(Some(10), 0, 2)]],
        &[&[(Some(20), 0, 3)]],
    ];
    assert_merges(
        &rt,
        alloc,
        ASCENDING,
        one_each,
        &[(Some(10), 0, 2), (Some(20), 0, 3), (Some(30), 0, 1)],
    )?;
    let all_equal: &[&[&[Row]]] = &[
        &[&[(Some(7), 2, 1), (Some(7), 0, 9)]],
        &[&[(Some(7), 1, 1)], &[(Some(7), 0, 2)]],
    ];
    assert_merges(
        &rt,
        alloc,
        ASCENDING,
        all_equal,
        &[
            (Some(7), 0, 2),
            (Some(7), 0, 9),
            (Some(7), 1, 1),
            (Some(7), 2, 1),
        ],
    )?;
    let with_nulls: &[&[&[Row]]] = &[
        &[&[(Some(-5), 0, 1), (None, 0, 2), (Some(5), 0, 3)]],
        &[&[(Some(0), 1, 1), (None, 1, 2)], &[]],
    ];
    assert_merges(
        &rt,
        alloc,
        DESCENDING,
        with_nulls,
        &[
            (None, 0, 2),
            (None, 1, 2),
            (Some(5), 0, 3),
            (Some(0), 1, 1),
            (Some(-5), 0, 1),
        ],
    )
}

// Tapes with one tape of so many runs of one row: row i has the key 7 i modulo 300.
fn many_runs(alloc: Global, count: u32) -> Result<Tapes, AllocError>
    ensures { IfOk result (AllHaveOrder (ASCENDING ∷ [])) }
{
    let mut tape = Tape::new(alloc);
    for number in 0..count {
        let key = i64::from(number % 300 * 7 % 300);
        put_run(
            &mut tape,
            run_of(alloc, ASCENDING, &[(Some(key), number, 1)])?,
        )?;
    }
    Ok(Items::from_vec(Vec::from_array(alloc, [tape])?))
}

#[test]
fn many_runs_merge_in_order(rt: HostRuntime) -> Result<(), Fail> {
    let alloc = rt.alloc();
    let tapes = many_runs(alloc, 300)?;
    let mut wanted = Vec::new(alloc);
    for key in 0..300u32 {
        wanted.push((Some(i64::from(key)), key * 43 % 300, 1))?;
    }
    assert_parts(&rt, alloc, &tapes, ASCENDING, 31, &wanted)?;
    let merged = merge(alloc, tapes, order_of(alloc, ASCENDING)?)?;
    assert_gives(&rt, alloc, merged, &wanted)
}

// That the parts between these cuts have so many records each.
fn assert_sizes(
    rt: &impl Abort,
    alloc: Global,
    tapes: &Tapes,
    cuts: &Cuts,
    sizes: &[usize],
) -> Result<(), Fail>
    requires { AllHaveOrder (ASCENDING ∷ []) tapes.now }
{
    let order = order_of(alloc, ASCENDING)?;
    let mut sizes_left = sizes.iter();
    for part in 0..=cuts.len() {
        let run = merge_range(alloc, tapes, cuts, part, &order)?;
        assert!(rt; Some(run.len()) == sizes_left.next().copied());
    }
    assert!(rt; sizes_left.next().is_none());
    Ok(())
}

// That cuts are these, and how many records the parts between them have.
fn assert_cuts(
    rt: &impl Abort,
    alloc: Global,
    tapes: &Tapes,
    cuts: &Cuts,
    wanted: &[&[u8]],
    sizes: &[usize],
) -> Result<(), Fail>
    requires { AllHaveOrder (ASCENDING ∷ []) tapes.now }
{
    let mut left = wanted.iter();
    for number in 0..cuts.len() {
        assert!(rt; Some(cuts.get(number)) == left.next().copied());
    }
    assert!(rt; left.next().is_none());
    assert_sizes(rt, alloc, tapes, cuts, sizes)
}

// That the cuts into so many parts are these order bytes, or without the row pointers these keys,
// and that either way the parts have so many records.
fn assert_both_cuts(
    rt: &impl Abort,
    alloc: Global,
    tapes: &Tapes,
    parts: u32,
    wanted: &[&[u8]],
    wanted_keys: &[&[u8]],
    sizes: &[usize],
) -> Result<(), Fail>
    requires some { 1 ≤ parts }
    requires few { parts ≤ 32 }
    requires order { AllHaveOrder (ASCENDING ∷ []) tapes.now }
{
    let order = order_of(alloc, ASCENDING)?;
    let cuts = cut_points(alloc, tapes, parts, &order)?;
    assert_cuts(rt, alloc, tapes, &cuts, wanted, sizes)?;
    let by_keys = key_cuts(alloc, tapes, parts, &order)?;
    assert_cuts(rt, alloc, tapes, &by_keys, wanted_keys, sizes)
}

// A tape with one run of the numbers from 1 to 200.
fn tapes_of_200(alloc: Global) -> Result<Tapes, AllocError>
    ensures { IfOk result (AllHaveOrder (ASCENDING ∷ [])) }
{
    let mut rows = Vec::new(alloc);
    for number in 1..=200u16 {
        rows.push((Some(i64::from(number)), 0, number))?;
    }
    tapes_of(alloc, ASCENDING, &[&[&rows]])
}

#[test]
fn the_order_is_cut_at_samples(rt: HostRuntime) -> Result<(), Fail> {
    let alloc = rt.alloc();
    let bytes_65: &[u8] = &[1, 0x80, 0, 0, 0, 0, 0, 0, 65, 0, 0, 0, 0, 0, 65];
    let bytes_129: &[u8] = &[1, 0x80, 0, 0, 0, 0, 0, 0, 129, 0, 0, 0, 0, 0, 129];
    let bytes_193: &[u8] = &[1, 0x80, 0, 0, 0, 0, 0, 0, 193, 0, 0, 0, 0, 0, 193];
    assert_both_cuts(
        &rt,
        alloc,
        &tapes_of_200(alloc)?,
        4,
        &[bytes_65, bytes_129, bytes_193],
        &[&bytes_65[..9], &bytes_129[..9], &bytes_193[..9]],
        &[64, 64, 64, 8],
    )?;
    let none = tapes_of(alloc, ASCENDING, &[])?;
    let empty: &[&[u8]] = &[&[], &[], &[]];
    assert_both_cuts(&rt, alloc, &none, 4, empty, empty, &[0, 0, 0, 0])?;
    let one = tapes_of(alloc, ASCENDING, &[&[&[(Some(5), 1, 2)]]])?;
    let bytes_5: &[u8] = &[1, 0x80, 0, 0, 0, 0, 0, 0, 5, 0, 0, 0, 1, 0, 2];
    let key_5 = &bytes_5[..9];
    assert_both_cuts(&rt, alloc, &one, 2, &[bytes_5], &[key_5], &[0, 1])?;
    let same: &[Row] = &[(Some(5), 1, 2)];
    let equal = tapes_of(alloc, ASCENDING, &[&[same, same, same], &[same]])?;
    assert_both_cuts(
        &rt,
        alloc,
        &equal,
        4,
        &[bytes_5, bytes_5, bytes_5],
        &[key_5, key_5, key_5],
        &[0, 0, 0, 4],
    )
}

// 250 rows of a block, whose keys are so many numbers in turn.
fn rows_in_turn(alloc: Global, block: u32, keys: u16) -> Result<Vec<Row>, AllocError>
    requires { 1 ≤ keys }
{
    let mut rows = Vec::new(alloc);
    for number in 1..=250u16 {
        rows.push((Some(i64::from(number % keys)), block, number))?;
    }
    Ok(rows)
}

// Two tapes of two such runs each.
fn tapes_in_turn(alloc: Global, keys: u16) -> Result<Tapes, AllocError>
    requires { 1 ≤ keys }
    ensures { IfOk result (AllHaveOrder (ASCENDING ∷ [])) }
{
    let first = rows_in_turn(alloc, 0, keys)?;
    let second = rows_in_turn(alloc, 1, keys)?;
    let third = rows_in_turn(alloc, 2, keys)?;
    let fourth = rows_in_turn(alloc, 3, keys)?;
    tapes_of(alloc, ASCENDING, &[&[&first, &second], &[&third, &fourth]])
}

// That the parts of so many between key cuts have so many records each.
fn assert_key_parts(
    rt: &impl Abort,
    alloc: Global,
    tapes: &Tapes,
    parts: u32,
    sizes: &[usize],
) -> Result<(), Fail>
    requires some { 1 ≤ parts }
    requires few { parts ≤ 32 }
    requires order { AllHaveOrder (ASCENDING ∷ []) tapes.now }
{
    let cuts = key_cuts(alloc, tapes, parts, &order_of(alloc, ASCENDING)?)?;
    assert_sizes(rt, alloc, tapes, &cuts, sizes)
}

#[test]
fn equal_keys_stay_in_one_part(rt: HostRuntime) -> Result<(), Fail> {
    let alloc = rt.alloc();
    let equal = tapes_in_turn(alloc, 1)?;
    assert_key_parts(&rt, alloc, &equal, 1, &[1000])?;
    assert_key_parts(&rt, alloc, &equal, 2, &[0, 1000])?;
    let mut last_of_31 = [0; 31];
    last_of_31[30] = 1000;
    assert_key_parts(&rt, alloc, &equal, 31, &last_of_31)?;
    let three = tapes_in_turn(alloc, 3)?;
    assert_key_parts(&rt, alloc, &three, 8, &[0, 0, 0, 332, 0, 336, 0, 332])
}

#[test]
fn equal_keys_are_cut_by_their_row_pointers(rt: HostRuntime) -> Result<(), Fail> {
    let alloc = rt.alloc();
    let equal = tapes_in_turn(alloc, 1)?;
    let order = order_of(alloc, ASCENDING)?;
    let in_two = cut_points(alloc, &equal, 2, &order)?;
    assert_sizes(&rt, alloc, &equal, &in_two, &[500, 500])?;
    let in_four = cut_points(alloc, &equal, 4, &order)?;
    assert_sizes(&rt, alloc, &equal, &in_four, &[250, 250, 250, 250])
}

// The records of one run.
fn in_order(alloc: Global, run: Run) -> Result<Merged, AllocError> {
    let _count = run.len();
    let mut tape = Tape::new(alloc);
    put_run(&mut tape, run)?;
    Ok(Merged::in_order(tape))
}

#[test]
fn records_in_order_are_given_in_place(rt: HostRuntime) -> Result<(), Fail> {
    let alloc = rt.alloc();
    assert_gives(&rt, alloc, Merged::in_order(Tape::new(alloc)), &[])?;
    let rows: &[Row] = &[(Some(2), 0, 1), (Some(1), 0, 2), (Some(2), 0, 0)];
    let run = run_of(alloc, ASCENDING, rows)?;
    let wanted: &[Row] = &[(Some(1), 0, 2), (Some(2), 0, 0), (Some(2), 0, 1)];
    assert_gives(&rt, alloc, in_order(alloc, run)?, wanted)
}
