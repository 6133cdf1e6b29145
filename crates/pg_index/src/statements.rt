ghost use Rattle.std.specs.Prelude.{IfOk};
ghost use Rattle.index_stmt.specs.Answers.{Answers};
ghost use Rattle.opclass.specs.Indexes.{IsIndexOver, IsTable};
ghost use Rattle.pg_index.specs.Statements.{asked_by};

use index_stmt::{ReadStmt, read_index, read_table};
use opclass::{IndexSpec, Table};
use std::alloc::Global;

/// What the statements of a build ask for: a table, and an index over it.
#[derive(Debug, Drop)]
pub struct Asked {
    pub table: Table,
    pub spec: IndexSpec,
}

/// Reads the two statements. Of two faults the table's is told.
pub fn read_statements(alloc: Global, table: &str, index: &str) -> Result<Asked, ReadStmt>
    ensures read { Answers (asked_by table.now index.now) result }
    ensures table { IfOk result (λ asked. IsTable asked.table) }
    ensures index { IfOk result (λ asked. IsIndexOver asked.table asked.spec) }
{
    let table = read_table(alloc, table.as_bytes())?;
    let spec = read_index(alloc, index.as_bytes(), &table)?;
    Ok(Asked { table, spec })
}
