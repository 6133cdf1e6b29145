ghost use Rattle.std.specs.Prelude.{◌≡◌, IfOk};
ghost use Rattle.index_stmt.specs.Faults.{index_of, table_of};
ghost use Rattle.opclass.specs.Indexes.{IsIndexOver, IsTable};
ghost use Rattle.index_stmt.specs.Named.{HasNames, IsNamed};
ghost use Rattle.index_stmt.specs.Answers.{Answers, fault_at, too_long};

use crate::fault::{ReadStmt, StmtCause, StmtFault, Stop};
use crate::index_statement::index_statement;
use crate::statement::Statement;
use crate::table_statement::table_statement;
use opclass::{IndexSpec, Table};
use std::alloc::Global;
use stmt_token::MOST_BYTES;

/// The statement of the table, as faults tell it.
const TABLE: u8 = 1;

/// The statement of the index, as faults tell it.
const INDEX: u8 = 2;

/// Reads the statement of a table (`CreateStmt` of `gram.y`). The fault is the first in reading
/// order. It takes memory for the table alone.
pub fn read_table(alloc: Global, text: &[u8]) -> Result<Table, ReadStmt>
    ensures read { Answers (table_of text.now) result }
    ensures table { IfOk result IsTable }
    ensures named { IfOk result HasNames }
{
    if text.len() > MOST_BYTES {
        return Err(too_long(TABLE));
    }
    let mut statement = Statement::of(text);
    match table_statement(alloc, &mut statement) {
        Ok(table) => Ok(table),
        Err(Stop::Fault(cause)) => Err(fault_at(TABLE, cause, &statement)),
        Err(Stop::Memory) => Err(ReadStmt::Memory),
    }
}

/// Reads the statement of an index over a table (`IndexStmt` of `gram.y`). The fault is the first
/// in reading order. It takes memory for the index alone.
pub fn read_index(alloc: Global, text: &[u8], table: &Table) -> Result<IndexSpec, ReadStmt>
    requires { IsTable table.now }
    ensures read { Answers (index_of table.now text.now) result }
    ensures index { IfOk result (IsIndexOver table.now) }
    ensures named { IfOk result IsNamed }
{
    if text.len() > MOST_BYTES {
        return Err(too_long(INDEX));
    }
    let mut statement = Statement::of(text);
    match index_statement(alloc, table, &mut statement) {
        Ok(spec) => Ok(spec),
        Err(Stop::Fault(cause)) => Err(fault_at(INDEX, cause, &statement)),
        Err(Stop::Memory) => Err(ReadStmt::Memory),
    }
}

// The fault of a statement of too many bytes.
fn too_long(statement: u8) -> ReadStmt
    ensures { result ≡ too_long statement }
{
    ReadStmt::Fault(StmtFault {
        statement,
        place: MOST_BYTES as u32,
        cause: StmtCause::NoToken.number(),
    })
}

// A fault at the next token.
fn fault_at(number: u8, cause: StmtCause, statement: &Statement<'_>) -> ReadStmt
    ensures { result ≡ fault_at number cause statement.now }
{
    ReadStmt::Fault(StmtFault {
        statement: number,
        place: statement.place(),
        cause: cause.number(),
    })
}
