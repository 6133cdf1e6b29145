ghost use Rattle.std.specs.Prelude.{◌≡◌, ◌≤◌, ◌<◌, length, option_and_then};
ghost use Rattle.stmt_token.specs.Borrowed.{name_of, value_of};
ghost use Rattle.index_stmt.specs.Columns.{collation, column_of, is_c, known_column};
ghost use Rattle.index_stmt.specs.Names.{name};
ghost use Rattle.index_stmt.specs.Pass.{ReadsFreely, next_of};
ghost use Rattle.index_stmt.specs.Rule.{expected, meaning};

use crate::fault::StmtCause;
use crate::names::next_is_name;
use crate::statement::Statement;
use opclass::{ColType, Column, Table};
use stmt_token::{Sign, Token};

/// A column of a table: its number, from 1, and its type.
#[derive(Clone, Copy, Debug, PartialEq, Eq)]
pub struct Found {
    pub number: u16,
    pub kind: ColType,
}

/// The column that a token names.
pub fn column_named(columns: &[Column], token: Token<'_>) -> Option<Found>
    requires { length columns.now ≤ 1600 }
    ensures { result ≡ column_of columns.now (option_and_then name_of (value_of token.entry)) }
{
    for (index, column) in columns.iter().enumerate() {
        if token.is_name(column.name.as_slice()) {
            return Some(Found {
                number: index as u16 + 1,
                kind: column.kind,
            });
        }
    }
    None
}

/// A name that has to be a column's.
#[tactic(auto, unfolding(crate::specs::Names::name))]
pub fn known_column(statement: &mut Statement<'_>, table: &Table) -> Result<Found, StmtCause>
    requires { length table.now.columns ≤ 1600 }
    ensures { ReadsFreely (meaning name (known_column table.now)) statement.old result statement.new }
{
    if !next_is_name(statement) {
        return Err(statement.other_token());
    }
    match column_named(table.columns.as_slice(), statement.peek()) {
        Some(column) => {
            statement.advance();
            Ok(column)
        }
        None => Err(StmtCause::UnknownName),
    }
}

/// [collate], behind a column of this type
#[tactic(auto, unfolding(crate::specs::Columns::collation))]
pub fn collation(kind: ColType, statement: &mut Statement<'_>) -> Result<(), StmtCause>
    ensures { ReadsFreely (collation kind) statement.old result statement.new }
{
    if !statement.next_is_word(b"collate") {
        return Ok(());
    }
    if !kind.facts().collated {
        return Err(StmtCause::NotAllowed);
    }
    statement.advance();
    if statement.take_word(b"pg_catalog") {
        statement.sign(Sign::Dot)?;
    }
    collation_c(statement)
}

// "C"
fn collation_c(statement: &mut Statement<'_>) -> Result<(), StmtCause>
    ensures { ReadsFreely (expected is_c) statement.old result statement.new }
{
    match statement.peek() {
        Token::Quoted(b"C") => {
            statement.advance();
            Ok(())
        }
        _ => Err(statement.other_token()),
    }
}
