ghost use Rattle.opclass.specs.Indexes.{IsTable};

use index_stmt::{ReadStmt, read_index, read_table};
use opclass::{ColType, Cond, IndexSpec, KeyCol, Method, Op, Table, Test};
use std::alloc::{AllocError, Global};
use std::process::Abort;
use std::test::Fail;

const ONE_COLUMN: &[u8] = b"CREATE TABLE t (a int4)";

const MANY_TYPES: &[u8] =
    b"CREATE TABLE t (a int4, b text, c bool, d int4[], e float8, f varchar(9))";

/// A statement with all that there is, as pg_dump lays it out.
const WHOLE: &[u8] =
    b"CREATE UNIQUE INDEX \"I\" ON public.t USING btree (b COLLATE pg_catalog.\"C\" DESC, a,
    a ASC NULLS FIRST, a DESC NULLS LAST) INCLUDE (a, b, a) NULLS NOT DISTINCT
    WITH (fillfactor='70', deduplicate_items=OFF)
    WHERE ((a > 10) AND (b <> 'it''s'::text) AND c = TRUE AND (a = -5) AND e IS NOT NULL);";

/// Types by their words.
static SPELLINGS: [(&[u8], ColType); 46] = [
    (b"bool", ColType::Bool),
    (b"Boolean", ColType::Bool),
    (b"int2", ColType::Int2),
    (b"smallint", ColType::Int2),
    (b"int4", ColType::Int4),
    (b"int", ColType::Int4),
    (b"INTEGER", ColType::Int4),
    (b"int8", ColType::Int8),
    (b"bigint", ColType::Int8),
    (b"oid", ColType::Oid),
    (b"date", ColType::Date),
    (b"timestamp", ColType::Timestamp),
    (b"timestamp(3)", ColType::Timestamp),
    (b"timestamp without time zone", ColType::Timestamp),
    (b"timestamp (3) with time zone", ColType::Timestamptz),
    (b"timestamptz", ColType::Timestamptz),
    (b"time", ColType::Time),
    (b"time(6) without time zone", ColType::Time),
    (b"uuid", ColType::Uuid),
    (b"text", ColType::Text),
    (b"varchar", ColType::Varchar),
    (b"varchar(10)", ColType::Varchar),
    (b"character varying", ColType::Varchar),
    (b"character varying(10)", ColType::Varchar),
    (b"bytea", ColType::Bytea),
    (b"float4", ColType::Float4),
    (b"real", ColType::Float4),
    (b"float8", ColType::Float8),
    (b"double precision", ColType::Float8),
    (b"numeric", ColType::Numeric),
    (b"numeric(5)", ColType::Numeric),
    (b"decimal(5,2)", ColType::Numeric),
    (b"bpchar", ColType::Bpchar),
    (b"char", ColType::Bpchar),
    (b"char(4)", ColType::Bpchar),
    (b"character(4)", ColType::Bpchar),
    (b"name", ColType::Name),
    (b"interval", ColType::Interval),
    (b"json", ColType::Json),
    (b"jsonb", ColType::Jsonb),
    (b"int4[]", ColType::Int4Array),
    (b"integer [ ]", ColType::Int4Array),
    (b"bigint[]", ColType::Int8Array),
    (
        b"text[] collate pg_catalog.\"C\" not null",
        ColType::TextArray,
    ),
    (b"text COLLATE \"C\" NULL", ColType::Text),
    (b"int4 NOT NULL", ColType::Int4),
];

/// Statements of a table, and where and why they are refused.
static TABLE_FAULTS: [(&[u8], u32, u8); 31] = [
    (b"", 0, 2),
    (b"CREATE ", 7, 2),
    (b"CREATE TABLE $", 13, 1),
    (b"CREATE TABLE t (a int4", 22, 2),
    (b"CREATE TABLE t ()", 16, 2),
    (b"CREATE TABLE t (a int5)", 18, 4),
    (b"CREATE TABLE t (a int5 $)", 18, 4),
    (b"CREATE TABLE t (a 5)", 18, 2),
    (b"CREATE TABLE t (a $)", 18, 1),
    (b"CREATE TABLE t (a \"int4\")", 18, 4),
    (b"CREATE TABLE t (a double", 18, 4),
    (b"CREATE TABLE t (a double $)", 25, 1),
    (b"CREATE TABLE t (a double x)", 18, 4),
    (b"CREATE TABLE t (a timestamp with", 18, 4),
    (b"CREATE TABLE t (a time without zone)", 18, 4),
    (b"CREATE TABLE t (a time with time zone)", 23, 2),
    (b"CREATE TABLE t (a int4 [ 3", 18, 4),
    (b"CREATE TABLE t (a varchar[])", 25, 2),
    (b"CREATE TABLE t (a bool[])", 22, 2),
    (b"CREATE TABLE t (a bpchar(3))", 24, 2),
    (b"CREATE TABLE t (a numeric(3,2,1))", 18, 4),
    (b"CREATE TABLE t (a char(1234567890123456789))", 23, 1),
    (b"CREATE TABLE t (table int4)", 16, 2),
    (b"CREATE TABLE t (a int4, a int4)", 24, 7),
    (b"CREATE TABLE t (a int4, \"a\" int5)", 24, 7),
    (b"CREATE TABLE t (a int4 COLLATE \"C\")", 23, 5),
    (b"CREATE TABLE t (a text COLLATE \"D\")", 31, 2),
    (
        b"CREATE TABLE t (a text COLLATE \"pg_catalog\".\"C\")",
        31,
        2,
    ),
    (b"CREATE TABLE t (a int4 NOT x)", 27, 2),
    (b"CREATE TABLE t (a int4) x", 24, 2),
    (b"CREATE TABLE t (a int4);;", 24, 2),
];

/// Statements of an index over the table of one column, and where and why they are refused.
static INDEX_FAULTS: [(&[u8], u32, u8); 40] = [
    (b"CREATE INDEX i ON t (b)", 21, 3),
    (b"CREATE INDEX i ON t (a", 22, 2),
    (b"CREATE INDEX i ON t (a) WITH (fillfactor=9)", 41, 6),
    (b"CREATE UNIQUE INDEX i ON t USING brin (a)", 33, 5),
    (b"CREATE INDEX i ON t USING brin (a) INCLUDE (b)", 35, 5),
    (b"CREATE INDEX i ON x $", 18, 3),
    (b"CREATE INDEX i ON s.x (a)", 20, 3),
    (b"CREATE INDEX i ON t USING hash (a)", 26, 5),
    (b"CREATE INDEX i ON t USING create (a)", 26, 5),
    (b"CREATE INDEX i ON t USING (a)", 26, 2),
    (b"CREATE INDEX i ON t USING brin (a DESC)", 34, 5),
    (b"CREATE INDEX i ON t USING brin (a NULLS FIRST)", 34, 5),
    (b"CREATE INDEX i ON t (a NULLS x)", 29, 2),
    (b"CREATE INDEX i ON t (a) NULLS DISTINCT", 24, 5),
    (b"CREATE INDEX i ON t (a) NULLS $", 24, 5),
    (b"CREATE INDEX i ON t (a) INCLUDE (b)", 33, 3),
    (b"CREATE INDEX i ON t (a) WITH (x=1)", 30, 5),
    (b"CREATE INDEX i ON t (a) WITH (null=1)", 30, 5),
    (b"CREATE INDEX i ON t (a) WITH (fillfactor=101)", 41, 6),
    (b"CREATE INDEX i ON t (a) WITH (fillfactor=null)", 41, 6),
    (b"CREATE INDEX i ON t (a) WITH (fillfactor='9 0')", 41, 6),
    (b"CREATE INDEX i ON t (a) WITH (fillfactor=-9)", 41, 2),
    (
        b"CREATE INDEX i ON t (a) WITH (fillfactor=10,fillfactor=10)",
        44,
        7,
    ),
    (b"CREATE INDEX i ON t (a) WITH (deduplicate_items=1)", 48, 6),
    (b"CREATE INDEX i ON t (a) WITH (pages_per_range=1)", 30, 5),
    (
        b"CREATE INDEX i ON t USING brin (a) WITH (pages_per_range=0)",
        57,
        6,
    ),
    (
        b"CREATE INDEX i ON t USING brin (a) WITH (pages_per_range=131073)",
        57,
        6,
    ),
    (b"CREATE INDEX i ON t (a) WHERE b = 1", 30, 3),
    (b"CREATE INDEX i ON t (a) WHERE a = 'x'", 34, 5),
    (b"CREATE INDEX i ON t (a) WHERE a = true", 34, 5),
    (b"CREATE INDEX i ON t (a) WHERE a = b", 34, 2),
    (b"CREATE INDEX i ON t (a) WHERE a = - 'x'", 36, 2),
    (b"CREATE INDEX i ON t (a) WHERE a = 1::int5", 37, 4),
    (
        b"CREATE INDEX i ON t (a) WHERE a = 1234567890123456789",
        34,
        1,
    ),
    (b"CREATE INDEX i ON t (a) WHERE a IS 1", 35, 2),
    (b"CREATE INDEX i ON t (a) WHERE (a = 1", 36, 2),
    (b"CREATE INDEX i ON t (a) WHERE a = 1)", 35, 2),
    (b"CREATE INDEX i ON t (a) WHERE a > 1 AND", 39, 2),
    (b"CREATE INDEX i ON t (a) WITH (fillfactor=10) NULLS", 45, 2),
    (b"CREATE INDEX i ON t (a);;", 24, 2),
];

/// The same over the table of many types.
static TYPE_FAULTS: [(&[u8], u32, u8); 14] = [
    (b"CREATE INDEX i ON t (e)", 21, 5),
    (b"CREATE INDEX i ON t (d)", 21, 5),
    (b"CREATE INDEX i ON t (a) INCLUDE (e)", 33, 5),
    (b"CREATE INDEX i ON t USING brin (c)", 32, 5),
    (b"CREATE INDEX i ON t USING gin (a)", 31, 5),
    (b"CREATE INDEX i ON t USING gin (d, d)", 34, 5),
    (
        b"CREATE INDEX i ON t USING gin (d) WITH (fastupdate=2)",
        51,
        6,
    ),
    (b"CREATE INDEX i ON t (a COLLATE \"C\")", 23, 5),
    (b"CREATE INDEX i ON t (a) WHERE c > true", 32, 5),
    (b"CREATE INDEX i ON t (a) WHERE e = 1", 32, 5),
    (b"CREATE INDEX i ON t (a) WHERE c = - 1", 34, 5),
    (b"CREATE INDEX i ON t (a) WHERE b = 1", 34, 5),
    (b"CREATE INDEX i ON t (a) WHERE b + 1", 32, 1),
    (b"CREATE INDEX i ON t (a) WHERE b . 1", 32, 2),
];

/// Operators, and whether they ask for more than equality.
static OPERATORS: [(&[u8], Op, bool); 7] = [
    (b"=", Op::Eq, false),
    (b"<>", Op::Ne, false),
    (b"!=", Op::Ne, false),
    (b"<", Op::Lt, true),
    (b"<=", Op::Le, true),
    (b">", Op::Gt, true),
    (b">=", Op::Ge, true),
];

/// Types, a literal, and whether they are compared with it by equality and by order.
static COMPARISONS: [(&[u8], &[u8], bool, bool); 24] = [
    (b"bool", b"true", true, false),
    (b"int2", b"1", true, true),
    (b"int4", b"1", true, true),
    (b"int8", b"1", true, true),
    (b"oid", b"1", true, true),
    (b"date", b"1", false, false),
    (b"timestamp", b"1", false, false),
    (b"timestamptz", b"1", false, false),
    (b"time", b"1", false, false),
    (b"uuid", b"''", false, false),
    (b"text", b"'1'", true, true),
    (b"varchar", b"'1'", true, true),
    (b"bytea", b"''", false, false),
    (b"float4", b"1", false, false),
    (b"float8", b"1", false, false),
    (b"numeric", b"1", false, false),
    (b"bpchar", b"''", false, false),
    (b"name", b"''", false, false),
    (b"interval", b"1", false, false),
    (b"json", b"''", false, false),
    (b"jsonb", b"''", false, false),
    (b"int4[]", b"1", false, false),
    (b"int8[]", b"1", false, false),
    (b"text[]", b"''", false, false),
];

// The place and the cause of the fault that a reading ends with, or None where it ends otherwise.
fn fault_of<T>(read: &Result<T, ReadStmt>) -> Option<(u8, u32, u8)> {
    match read {
        Err(ReadStmt::Fault(fault)) => Some((fault.statement, fault.place, fault.cause)),
        _ => None,
    }
}

fn joined(alloc: Global, pieces: &[&[u8]]) -> Result<Vec<u8>, AllocError> {
    let mut text = Vec::new(alloc);
    for piece in pieces {
        text.extend_from_slice(piece)?;
    }
    Ok(text)
}

fn repeated(
    alloc: Global,
    front: &[u8],
    piece: &[u8],
    count: usize,
) -> Result<Vec<u8>, AllocError> {
    let mut text = Vec::new(alloc);
    text.extend_from_slice(front)?;
    for _ in 0..count {
        text.extend_from_slice(piece)?;
    }
    Ok(text)
}

fn table_of(rt: &impl Abort, alloc: Global, text: &[u8]) -> Table
    ensures { IsTable result }
{
    match read_table(alloc, text) {
        Ok(table) => table,
        Err(_) => panic!(rt; "no table"),
    }
}

fn assert_types(
    rt: &impl Abort,
    alloc: Global,
    rows: &[(&[u8], ColType)],
) -> Result<(), AllocError> {
    for (spelling, kind) in rows {
        let text = joined(alloc, &[b"CREATE TABLE t (a ", spelling, b");"])?;
        let table = table_of(rt, alloc, &text);
        assert!(rt; table.columns.len() == 1);
        assert!(rt; table.columns.get(0).kind == *kind);
    }
    Ok(())
}

#[test]
fn each_spelling_is_a_type(rt: HostRuntime) -> Result<(), Fail> {
    assert_types(&rt, rt.alloc(), &SPELLINGS)?;
    Ok(())
}

fn assert_table_faults(rt: &impl Abort, alloc: Global, rows: &[(&[u8], u32, u8)]) {
    for (text, place, cause) in rows {
        let read = read_table(alloc, text);
        assert!(rt; fault_of(&read) == Some((1, *place, *cause)));
    }
}

#[test]
fn a_table_statement_tells_its_first_fault(rt: HostRuntime) {
    assert_table_faults(&rt, rt.alloc(), &TABLE_FAULTS);
}

#[test]
fn names_are_words_or_quoted(rt: HostRuntime) -> Result<(), Fail> {
    let alloc = rt.alloc();
    let text = b"create table s.\"T x\" (First int4, \"First\" int4, \"table\" text, time time)";
    let table = table_of(&rt, alloc, text);
    assert!(rt; table.name.as_slice() == b"T x".as_slice());
    let names: [&[u8]; 4] = [b"first", b"First", b"table", b"time"];
    assert!(rt; table.columns.len() == names.len());
    for (column, name) in table.columns.as_slice().iter().zip(names.iter()) {
        assert!(rt; column.name.as_slice() == *name);
    }
    Ok(())
}

fn assert_index_faults(rt: &impl Abort, alloc: Global, table: &Table, rows: &[(&[u8], u32, u8)])
    requires { IsTable table.now }
{
    for (text, place, cause) in rows {
        let read = read_index(alloc, text, table);
        assert!(rt; fault_of(&read) == Some((2, *place, *cause)));
    }
}

#[test]
fn an_index_statement_tells_its_first_fault(rt: HostRuntime) {
    let alloc = rt.alloc();
    let one = table_of(&rt, alloc, ONE_COLUMN);
    assert_index_faults(&rt, alloc, &one, &INDEX_FAULTS);
    let many = table_of(&rt, alloc, MANY_TYPES);
    assert_index_faults(&rt, alloc, &many, &TYPE_FAULTS);
}

fn index_of(rt: &impl Abort, alloc: Global, text: &[u8], table: &Table) -> IndexSpec
    requires { IsTable table.now }
{
    match read_index(alloc, text, table) {
        Ok(index) => index,
        Err(_) => panic!(rt; "no index"),
    }
}

#[test]
fn an_index_has_its_defaults(rt: HostRuntime) {
    let alloc = rt.alloc();
    let table = table_of(&rt, alloc, MANY_TYPES);
    let index = index_of(&rt, alloc, b"CREATE INDEX i ON t (a)", &table);
    assert!(rt; index.name.as_slice() == b"i".as_slice());
    assert!(rt; index.method == Method::BTree);
    assert!(rt; !index.unique && index.nulls_distinct && index.deduplicate);
    assert!(rt; index.fillfactor == 90);
    assert!(rt; index.pages_per_range == 128);
    assert!(rt; index.includes.as_slice().is_empty() && index.filter.as_slice().is_empty());
}

#[test]
fn an_index_has_what_its_statement_says(rt: HostRuntime) {
    let alloc = rt.alloc();
    let table = table_of(&rt, alloc, MANY_TYPES);
    let index = index_of(&rt, alloc, WHOLE, &table);
    assert!(rt; index.unique && !index.nulls_distinct && !index.deduplicate);
    assert!(rt; index.fillfactor == 70);
    assert!(rt; index.includes.as_slice() == [1, 2, 1].as_slice());
    assert_keys(&rt, index.keys.as_slice());
    assert_conditions(&rt, index.filter.as_slice());
}

// The keys of the whole statement: column, descending, nulls first.
fn assert_keys(rt: &impl Abort, keys: &[KeyCol]) {
    let wanted = [
        (2, true, true),
        (1, false, false),
        (1, false, true),
        (1, true, false),
    ];
    assert!(rt; keys.len() == wanted.len());
    for (key, wanted) in keys.iter().zip(wanted) {
        assert!(rt; (key.column, key.descending, key.nulls_first) == wanted);
    }
}

// The conditions of the whole statement.
fn assert_conditions(rt: &impl Abort, conditions: &[Cond]) {
    let [more, text, truth, negative, there] = conditions else {
        panic!(rt; "other conditions");
    };
    assert!(rt; is_num(&more.test, Op::Gt, 10));
    assert!(rt; is_raw(&text.test, Op::Ne, b"it's"));
    assert!(rt; is_num(&truth.test, Op::Eq, 1));
    assert!(rt; is_num(&negative.test, Op::Eq, -5));
    assert!(rt; matches!(&there.test, Test::NotNull) && there.column == 5);
}

#[test]
fn each_method_has_its_option(rt: HostRuntime) {
    let alloc = rt.alloc();
    let table = table_of(&rt, alloc, MANY_TYPES);
    let brin = b"create index i on t using brin (a, b) with (pages_per_range = 131072)";
    assert!(rt; index_of(&rt, alloc, brin, &table).pages_per_range == 131_072);
    let gin = b"create index i on t using gin (d) with (fastupdate = 'Off')";
    assert!(rt; index_of(&rt, alloc, gin, &table).method == Method::Gin);
}

// The operator of an index's only condition.
fn only_operator(read: &Result<IndexSpec, ReadStmt>) -> Option<Op> {
    let Ok(index) = read else {
        return None;
    };
    match index.filter.as_slice() {
        [cond] => match &cond.test {
            Test::Num { op, .. } | Test::Raw { op, .. } => Some(*op),
            _ => None,
        },
        _ => None,
    }
}

// The operators that a column of the second of two types is compared by; the others are refused
// where they stand.
fn assert_operators(
    rt: &impl Abort,
    alloc: Global,
    table: &Table,
    literal: &[u8],
    allowed: (bool, bool),
) -> Result<(), AllocError>
    requires { IsTable table.now }
{
    for (spelling, op, ordered) in OPERATORS {
        let text = joined(
            alloc,
            &[b"CREATE INDEX i ON t (k) WHERE a ", spelling, literal],
        )?;
        let read = read_index(alloc, &text, table);
        if if ordered { allowed.1 } else { allowed.0 } {
            assert!(rt; only_operator(&read) == Some(op));
        } else {
            assert!(rt; fault_of(&read) == Some((2, 32, 5)));
        }
    }
    Ok(())
}

fn assert_comparisons(
    rt: &impl Abort,
    alloc: Global,
    rows: &[(&[u8], &[u8], bool, bool)],
) -> Result<(), AllocError> {
    for (kind, literal, equal, ordered) in rows {
        let text = joined(alloc, &[b"CREATE TABLE t (k int4, a ", kind, b")"])?;
        let table = table_of(rt, alloc, &text);
        assert_operators(rt, alloc, &table, literal, (*equal, *ordered))?;
    }
    Ok(())
}

#[test]
fn a_type_has_its_operators(rt: HostRuntime) -> Result<(), Fail> {
    assert_comparisons(&rt, rt.alloc(), &COMPARISONS)?;
    Ok(())
}

fn is_num(test: &Test, wanted: Op, number: i64) -> bool {
    match test {
        Test::Num { op, value } => *op == wanted && *value == number,
        _ => false,
    }
}

fn is_raw(test: &Test, wanted: Op, bytes: &[u8]) -> bool {
    match test {
        Test::Raw { op, value } => *op == wanted && value.as_slice() == bytes,
        _ => false,
    }
}

#[test]
fn an_index_has_32_columns(rt: HostRuntime) -> Result<(), Fail> {
    let alloc = rt.alloc();
    let table = table_of(&rt, alloc, ONE_COLUMN);
    let keys = repeated(alloc, b"CREATE INDEX i ON t (a", b",a", 30)?;
    let full = joined(alloc, &[&keys, b") INCLUDE (a)"])?;
    let index = index_of(&rt, alloc, &full, &table);
    assert!(rt; (index.keys.len(), index.includes.len()) == (31, 1));
    let over = joined(alloc, &[&keys, b") INCLUDE (a,a)"])?;
    assert!(rt; fault_of(&read_index(alloc, &over, &table)) == Some((2, 95, 5)));
    Ok(())
}

#[test]
fn sixteen_parentheses_are_open(rt: HostRuntime) -> Result<(), Fail> {
    let alloc = rt.alloc();
    let table = table_of(&rt, alloc, ONE_COLUMN);
    let open = repeated(alloc, b"CREATE INDEX i ON t (a) WHERE ", b"(", 16)?;
    let closed = repeated(alloc, b"a = 1", b")", 16)?;
    let nested = joined(alloc, &[&open, &closed])?;
    assert!(rt; index_of(&rt, alloc, &nested, &table).filter.len() == 1);
    let deeper = joined(alloc, &[&open, b"(", &closed, b")"])?;
    assert!(rt; fault_of(&read_index(alloc, &deeper, &table)) == Some((2, 46, 2)));
    Ok(())
}

// A table's statement with so many columns.
fn wide_table(alloc: Global, count: u16) -> Result<Vec<u8>, AllocError> {
    let mut text = Vec::new(alloc);
    text.extend_from_slice(b"CREATE TABLE t (c0 int2")?;
    for number in 1..count {
        let column = format!(in alloc; ",c{number} int2")?;
        text.extend_from_slice(column.as_bytes())?;
    }
    text.extend_from_slice(b")")?;
    Ok(text)
}

#[test]
fn a_table_has_1600_columns(rt: HostRuntime) -> Result<(), Fail> {
    let alloc = rt.alloc();
    let widest = wide_table(alloc, 1600)?;
    assert!(rt; table_of(&rt, alloc, &widest).columns.len() == 1600);
    let wider = wide_table(alloc, 1601)?;
    assert!(rt; fault_of(&read_table(alloc, &wider)) == Some((1, 16_506, 5)));
    Ok(())
}

#[test]
fn a_statement_has_65536_bytes(rt: HostRuntime) -> Result<(), Fail> {
    let alloc = rt.alloc();
    let longest = repeated(alloc, ONE_COLUMN, b" ", 65_513)?;
    assert!(rt; table_of(&rt, alloc, &longest).columns.len() == 1);
    let longer = joined(alloc, &[&longest, b" "])?;
    assert!(rt; fault_of(&read_table(alloc, &longer)) == Some((1, 65_536, 1)));
    Ok(())
}
