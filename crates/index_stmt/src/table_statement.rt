ghost use Rattle.std.specs.Prelude.{◌≡◌, ◌≤◌, ◌<◌, [], length, OnOk, IfOk};
ghost use Rattle.index_stmt.specs.Names.{name};
ghost use Rattle.index_stmt.specs.Pass.{Reads, ReadsFreely};
ghost use Rattle.index_stmt.specs.Rule.{is_sign, meaning, separated};
ghost use Rattle.index_stmt.specs.TableStatement.{column, end_of_statement, new_name, no_more, nullness, table_statement};
ghost use Rattle.stmt_token.specs.declared.sign.Sign.TheVariants.{Comma};

use crate::columns::{collation, column_named};
use crate::fault::{StmtCause, Stop};
use crate::list::pushed;
use crate::names::{name, next_is_name, qualified_name};
use crate::statement::Statement;
use crate::type_name::type_name;
use opclass::{Column, ColumnList, Table};
use pg_bytes::{Bytes, Items};
use std::alloc::Global;
use stmt_token::{Sign, Token};

/// The most columns of a table (`MaxHeapAttributeNumber`).
pub const MOST_COLUMNS: usize = 1_600;

/// table
#[tactic(auto, unfolding(crate::specs::TableStatement::table_statement))]
pub fn table_statement(alloc: Global, statement: &mut Statement<'_>) -> Result<Table, Stop>
    ensures { Reads table_statement statement.old result statement.new }
{
    statement.word(b"create")?;
    statement.word(b"table")?;
    let name = qualified_name(alloc, statement)?;
    statement.sign(Sign::LeftParen)?;
    let columns = columns(alloc, statement)?;
    statement.sign(Sign::RightParen)?;
    end_of_statement(statement)?;
    Ok(Table { name, columns })
}

// column {"," column}
fn columns(alloc: Global, statement: &mut Statement<'_>) -> Result<ColumnList, Stop>
    ensures { Reads (separated (is_sign Comma) column []) statement.old result statement.new }
{
    let mut columns = Items::new(alloc);
    loop {
        columns = column(alloc, statement, columns)?;
        if !statement.take_sign(Sign::Comma) {
            return Ok(columns);
        }
    }
}

// column, behind these
#[tactic(auto, unfolding(crate::specs::TableStatement::column))]
fn column(
    alloc: Global,
    statement: &mut Statement<'_>,
    columns: ColumnList,
) -> Result<ColumnList, Stop>
    requires { length columns ≤ 1600 }
    ensures read { Reads (column columns) statement.old result statement.new }
    ensures room { IfOk result (λ longer. length longer ≤ 1600) }
{
    let name = new_name(alloc, statement, columns.as_slice())?;
    let kind = type_name(statement)?;
    collation(kind, statement)?;
    nullness(statement)?;
    pushed(columns, Column { name, kind })
}

// A name that no column has yet, where there is room for one more.
#[tactic(auto, unfolding(crate::specs::Names::name))]
fn new_name(alloc: Global, statement: &mut Statement<'_>, columns: &[Column]) -> Result<Bytes, Stop>
    requires { length columns.now ≤ 1600 }
    ensures read { Reads (meaning name (new_name columns.now)) statement.old result statement.new }
    ensures room { OnOk result (length columns.now < 1600) }
{
    if !next_is_name(statement) {
        return Err(Stop::Fault(statement.other_token()));
    }
    if column_named(columns, statement.peek()).is_some() {
        return Err(Stop::Fault(StmtCause::Repeated));
    }
    if columns.len() >= MOST_COLUMNS {
        return Err(Stop::Fault(StmtCause::NotAllowed));
    }
    name(alloc, statement)
}

// [NOT NULL | NULL]
#[tactic(auto, unfolding(crate::specs::TableStatement::nullness))]
fn nullness(statement: &mut Statement<'_>) -> Result<(), StmtCause>
    ensures { ReadsFreely nullness statement.old result statement.new }
{
    if statement.take_word(b"not") {
        return statement.word(b"null");
    }
    statement.take_word(b"null");
    Ok(())
}

/// [";"] and the end
#[tactic(auto, unfolding(crate::specs::TableStatement::end_of_statement))]
pub fn end_of_statement(statement: &mut Statement<'_>) -> Result<(), StmtCause>
    ensures { ReadsFreely end_of_statement statement.old result statement.new }
{
    statement.take_sign(Sign::Semicolon);
    no_more(statement)
}

// Nothing is left.
fn no_more(statement: &mut Statement<'_>) -> Result<(), StmtCause>
    ensures { ReadsFreely no_more statement.old result statement.new }
{
    match statement.peek() {
        Token::End => Ok(()),
        _ => Err(statement.other_token()),
    }
}
