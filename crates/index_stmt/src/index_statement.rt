ghost use Rattle.std.specs.Prelude.{◌≡◌, ◌≤◌, ◌<◌, [], length, option_and_then, IfOk, OnOk};
ghost use Rattle.index_stmt.specs.IndexStatement.{direction, distinctness, included, include_list, includes, index_column, index_head, index_statement, is_btree, key, key_list, known_method, method_named, method_rule, nulls_order, this_table, uniqueness};
ghost use Rattle.index_stmt.specs.Names.{name, qualified, word_in};
ghost use Rattle.index_stmt.specs.Pass.{Reads, ReadsFreely, next_of};
ghost use Rattle.index_stmt.specs.Rule.{is_sign, meaning, separated, token_as};
ghost use Rattle.opclass.specs.Indexes.{most_columns};
ghost use Rattle.opclass.specs.declared.types.Method.TheVariants.{BTree};
ghost use Rattle.stmt_token.specs.declared.sign.Sign.TheVariants.{Comma};

use crate::columns::{Found, collation, column_named};
use crate::conditions::filter;
use crate::fault::{StmtCause, Stop};
use crate::list::pushed;
use crate::names::{name, next_is_name, schema};
use crate::options::options;
use crate::statement::Statement;
use crate::table_statement::end_of_statement;
use opclass::{Columns, IndexSpec, KeyCol, KeyColList, Method, Table};
use pg_bytes::{Bytes, Items};
use std::alloc::Global;
use stmt_token::{Sign, Token};

/// The most columns of an index, INCLUDE columns among them (`INDEX_MAX_KEYS`).
const MOST_COLUMNS: usize = 32;

/// What a statement says of an index before its columns.
#[derive(Debug, Drop)]
pub struct Head {
    pub name: Bytes,
    pub unique: bool,
    pub method: Method,
}

/// index
#[tactic(auto, unfolding(crate::specs::IndexStatement::index_statement))]
pub fn index_statement(
    alloc: Global,
    table: &Table,
    statement: &mut Statement<'_>,
) -> Result<IndexSpec, Stop>
    requires { length table.now.columns ≤ 1600 }
    ensures { Reads (index_statement table.now) statement.old result statement.new }
{
    let head = index_head(alloc, table, statement)?;
    let keys = key_list(alloc, table, head.method, statement)?;
    let includes = includes(alloc, table, head.method, keys.len(), statement)?;
    let nulls_distinct = distinctness(head.unique, statement)?;
    let settings = options(head.method, statement)?;
    let filter = filter(alloc, table, statement)?;
    end_of_statement(statement)?;
    Ok(IndexSpec {
        name: head.name,
        method: head.method,
        unique: head.unique,
        nulls_distinct,
        keys,
        includes,
        fillfactor: settings.fillfactor.unwrap_or(90),
        deduplicate: settings.deduplicate_items.unwrap_or(true),
        pages_per_range: settings.pages_per_range.unwrap_or(128),
        filter,
    })
}

// CREATE [UNIQUE] INDEX name ON qname [USING word]
#[tactic(auto, unfolding(crate::specs::IndexStatement::index_head))]
fn index_head(alloc: Global, table: &Table, statement: &mut Statement<'_>) -> Result<Head, Stop>
    ensures { Reads (index_head table.now) statement.old result statement.new }
{
    statement.word(b"create")?;
    let unique = uniqueness(statement)?;
    statement.word(b"index")?;
    let name = name(alloc, statement)?;
    statement.word(b"on")?;
    on_table(table, statement)?;
    let method = method(unique, statement)?;
    Ok(Head {
        name,
        unique,
        method,
    })
}

// [UNIQUE]
#[tactic(auto, unfolding(crate::specs::IndexStatement::uniqueness))]
fn uniqueness(statement: &mut Statement<'_>) -> Result<bool, StmtCause>
    ensures { ReadsFreely uniqueness statement.old result statement.new }
{
    Ok(statement.take_word(b"unique"))
}

// qname, which has to be this table's
fn on_table(table: &Table, statement: &mut Statement<'_>) -> Result<(), StmtCause>
    ensures { ReadsFreely (qualified (meaning name (this_table table.now)))
        statement.old result statement.new }
{
    schema(statement)?;
    this_table(table, statement)
}

// The name of this table.
#[tactic(auto, unfolding(crate::specs::Names::name))]
fn this_table(table: &Table, statement: &mut Statement<'_>) -> Result<(), StmtCause>
    ensures { ReadsFreely (meaning name (this_table table.now)) statement.old result statement.new }
{
    if !next_is_name(statement) {
        return Err(statement.other_token());
    }
    if !statement.peek().is_name(table.name.as_slice()) {
        return Err(StmtCause::UnknownName);
    }
    statement.advance();
    Ok(())
}

// [USING word]
#[tactic(auto, unfolding(crate::specs::IndexStatement::method_rule))]
fn method(unique: bool, statement: &mut Statement<'_>) -> Result<Method, StmtCause>
    ensures { ReadsFreely (method_rule unique) statement.old result statement.new }
{
    if !statement.take_word(b"using") {
        return Ok(Method::BTree);
    }
    known_method(unique, statement)
}

// The word of a method, which for a unique index is a B-tree's.
fn known_method(unique: bool, statement: &mut Statement<'_>) -> Result<Method, StmtCause>
    ensures { ReadsFreely (meaning (token_as word_in) (known_method unique))
        statement.old result statement.new }
{
    let Token::Word(_) = statement.peek() else {
        return Err(statement.other_token());
    };
    match next_method(statement) {
        Some(method) if !unique || method == Method::BTree => {
            statement.advance();
            Ok(method)
        }
        _ => Err(StmtCause::NotAllowed),
    }
}

// The method that the next word is.
fn next_method(statement: &Statement<'_>) -> Option<Method>
    ensures { result ≡ option_and_then method_named
        (option_and_then word_in (next_of statement.now.tokens)) }
{
    if statement.next_is_word(b"btree") {
        Some(Method::BTree)
    } else if statement.next_is_word(b"brin") {
        Some(Method::Brin)
    } else if statement.next_is_word(b"gin") {
        Some(Method::Gin)
    } else {
        None
    }
}

// "(" key {"," key} ")"
#[tactic(auto, unfolding(crate::specs::IndexStatement::key_list))]
fn key_list(
    alloc: Global,
    table: &Table,
    method: Method,
    statement: &mut Statement<'_>,
) -> Result<KeyColList, Stop>
    requires { length table.now.columns ≤ 1600 }
    ensures read { Reads (key_list table.now method) statement.old result statement.new }
    ensures room { IfOk result (λ keys. length keys ≤ 32) }
{
    statement.sign(Sign::LeftParen)?;
    let keys = keys(alloc, table, method, statement)?;
    statement.sign(Sign::RightParen)?;
    Ok(keys)
}

// key {"," key}
fn keys(
    alloc: Global,
    table: &Table,
    method: Method,
    statement: &mut Statement<'_>,
) -> Result<KeyColList, Stop>
    requires { length table.now.columns ≤ 1600 }
    ensures read { Reads (separated (is_sign Comma) (key table.now method) [])
        statement.old result statement.new }
    ensures room { IfOk result (λ keys. length keys ≤ 32) }
{
    let mut keys = Items::new(alloc);
    loop {
        keys = key(table, method, keys, statement)?;
        if !statement.take_sign(Sign::Comma) {
            return Ok(keys);
        }
    }
}

// key, behind these
#[tactic(auto, unfolding(crate::specs::IndexStatement::key))]
fn key(
    table: &Table,
    method: Method,
    keys: KeyColList,
    statement: &mut Statement<'_>,
) -> Result<KeyColList, Stop>
    requires { length table.now.columns ≤ 1600 }
    ensures read { Reads (key table.now method keys) statement.old result statement.new }
    ensures room { IfOk result (λ longer. length longer ≤ 32) }
{
    let column = index_column(table, method, keys.len(), statement)?;
    collation(column.kind, statement)?;
    let descending = direction(method, statement)?;
    let nulls_first = nulls_order(method, descending, statement)?;
    pushed(
        keys,
        KeyCol {
            column: column.number,
            descending,
            nulls_first,
        },
    )
}

// The name of a column that the method takes, where the index has so many columns already.
#[tactic(auto, unfolding(crate::specs::Names::name))]
fn index_column(
    table: &Table,
    method: Method,
    columns: usize,
    statement: &mut Statement<'_>,
) -> Result<Found, StmtCause>
    requires { length table.now.columns ≤ 1600 }
    ensures read { ReadsFreely (meaning name (index_column table.now method columns))
        statement.old result statement.new }
    ensures room { OnOk result (columns < 32) }
{
    if !next_is_name(statement) {
        return Err(statement.other_token());
    }
    let Some(column) = column_named(table.columns.as_slice(), statement.peek()) else {
        return Err(StmtCause::UnknownName);
    };
    if !method.takes(column.kind) || columns >= most_columns(method) {
        return Err(StmtCause::NotAllowed);
    }
    statement.advance();
    Ok(column)
}

fn most_columns(method: Method) -> usize
    ensures most { result ≡ most_columns method }
    ensures few { result ≤ 32 }
{
    match method {
        Method::BTree | Method::Brin => MOST_COLUMNS,
        Method::Gin => 1,
    }
}

// [ASC | DESC]
#[tactic(auto, unfolding(crate::specs::IndexStatement::direction))]
fn direction(method: Method, statement: &mut Statement<'_>) -> Result<bool, StmtCause>
    ensures { ReadsFreely (direction method) statement.old result statement.new }
{
    let descending = statement.next_is_word(b"desc");
    if !descending && !statement.next_is_word(b"asc") {
        return Ok(false);
    }
    if method != Method::BTree {
        return Err(StmtCause::NotAllowed);
    }
    statement.advance();
    Ok(descending)
}

// [NULLS (FIRST | LAST)]
#[tactic(auto, unfolding(crate::specs::IndexStatement::nulls_order))]
fn nulls_order(
    method: Method,
    descending: bool,
    statement: &mut Statement<'_>,
) -> Result<bool, StmtCause>
    ensures { ReadsFreely (nulls_order method descending) statement.old result statement.new }
{
    if !statement.next_is_word(b"nulls") {
        return Ok(descending);
    }
    if method != Method::BTree {
        return Err(StmtCause::NotAllowed);
    }
    statement.advance();
    if statement.take_word(b"first") {
        return Ok(true);
    }
    statement.word(b"last")?;
    Ok(false)
}

// [INCLUDE "(" name {"," name} ")"], behind so many key columns
#[tactic(auto, unfolding(crate::specs::IndexStatement::includes))]
fn includes(
    alloc: Global,
    table: &Table,
    method: Method,
    keys: usize,
    statement: &mut Statement<'_>,
) -> Result<Columns, Stop>
    requires table { length table.now.columns ≤ 1600 }
    requires keys { keys ≤ 32 }
    ensures { Reads (includes table.now method keys) statement.old result statement.new }
{
    if !statement.next_is_word(b"include") {
        return Ok(Items::new(alloc));
    }
    if method != Method::BTree {
        return Err(Stop::Fault(StmtCause::NotAllowed));
    }
    statement.advance();
    include_list(alloc, table, keys, statement)
}

// "(" name {"," name} ")", behind so many key columns
#[tactic(auto, unfolding(crate::specs::IndexStatement::include_list))]
fn include_list(
    alloc: Global,
    table: &Table,
    keys: usize,
    statement: &mut Statement<'_>,
) -> Result<Columns, Stop>
    requires table { length table.now.columns ≤ 1600 }
    requires keys { keys ≤ 32 }
    ensures { Reads (include_list table.now keys) statement.old result statement.new }
{
    statement.sign(Sign::LeftParen)?;
    let columns = all_included(alloc, table, keys, statement)?;
    statement.sign(Sign::RightParen)?;
    Ok(columns)
}

// name {"," name}, behind so many key columns
fn all_included(
    alloc: Global,
    table: &Table,
    keys: usize,
    statement: &mut Statement<'_>,
) -> Result<Columns, Stop>
    requires table { length table.now.columns ≤ 1600 }
    requires keys { keys ≤ 32 }
    ensures { Reads (separated (is_sign Comma) (included table.now keys) [])
        statement.old result statement.new }
{
    let mut columns = Items::new(alloc);
    loop {
        columns = included(table, keys, columns, statement)?;
        if !statement.take_sign(Sign::Comma) {
            return Ok(columns);
        }
    }
}

// A name among INCLUDE's, behind so many key columns and these.
#[tactic(auto, unfolding(crate::specs::IndexStatement::included))]
fn included(
    table: &Table,
    keys: usize,
    columns: Columns,
    statement: &mut Statement<'_>,
) -> Result<Columns, Stop>
    requires table { length table.now.columns ≤ 1600 }
    requires keys { keys ≤ 32 }
    requires columns { length columns ≤ 32 }
    ensures read { Reads (included table.now keys columns) statement.old result statement.new }
    ensures room { IfOk result (λ longer. length longer ≤ 32) }
{
    let column = index_column(table, Method::BTree, keys + columns.len(), statement)?;
    pushed(columns, column.number)
}

// [NULLS [NOT] DISTINCT]
#[tactic(auto, unfolding(crate::specs::IndexStatement::distinctness))]
fn distinctness(unique: bool, statement: &mut Statement<'_>) -> Result<bool, StmtCause>
    ensures { ReadsFreely (distinctness unique) statement.old result statement.new }
{
    if !statement.next_is_word(b"nulls") {
        return Ok(true);
    }
    if !unique {
        return Err(StmtCause::NotAllowed);
    }
    statement.advance();
    let distinct = !statement.take_word(b"not");
    statement.word(b"distinct")?;
    Ok(distinct)
}
