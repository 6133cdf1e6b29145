ghost use Rattle.std.specs.Prelude.{◌≡◌};
ghost use Rattle.index_stmt.specs.Names.{is_name, name, qualified, schema};
ghost use Rattle.index_stmt.specs.Pass.{Reads, ReadsFreely};
ghost use Rattle.index_stmt.specs.Rule.{expected, next_is};

use crate::fault::{StmtCause, Stop};
use crate::statement::Statement;
use pg_bytes::Bytes;
use std::alloc::Global;
use stmt_token::{Sign, Token};

/// The words that are no names.
const RESERVED: [&[u8]; 20] = [
    b"create",
    b"table",
    b"unique",
    b"index",
    b"on",
    b"using",
    b"include",
    b"nulls",
    b"not",
    b"null",
    b"distinct",
    b"with",
    b"where",
    b"and",
    b"is",
    b"asc",
    b"desc",
    b"collate",
    b"true",
    b"false",
];

/// Whether the next token is a name: a quoted one, or a word that isn't reserved.
pub fn next_is_name(statement: &Statement<'_>) -> bool
    ensures { result ≡ next_is is_name statement.now.tokens }
{
    match statement.peek() {
        Token::Word(_) => !statement.next_is_among(&RESERVED),
        Token::Quoted(_) => true,
        _ => false,
    }
}

/// name
#[tactic(auto, unfolding(crate::specs::Names::name))]
pub fn name(alloc: Global, statement: &mut Statement<'_>) -> Result<Bytes, Stop>
    ensures { Reads name statement.old result statement.new }
{
    if !next_is_name(statement) {
        return Err(Stop::Fault(statement.other_token()));
    }
    match statement.peek().name(alloc)? {
        Some(name) => {
            statement.advance();
            Ok(name)
        }
        None => Err(Stop::Fault(statement.other_token())),
    }
}

/// qname
pub fn qualified_name(alloc: Global, statement: &mut Statement<'_>) -> Result<Bytes, Stop>
    ensures { Reads (qualified name) statement.old result statement.new }
{
    schema(statement)?;
    name(alloc, statement)
}

/// [name "."]
#[tactic(auto, unfolding(crate::specs::Names::schema))]
pub fn schema<'a>(statement: &mut Statement<'a>) -> Result<(), StmtCause>
    ensures { ReadsFreely schema statement.old result statement.new }
{
    let begun = statement.copy();
    any_name(statement)?;
    if statement.take_sign(Sign::Dot) {
        return Ok(());
    }
    *statement = begun;
    Ok(())
}

// A name that isn't looked at.
fn any_name(statement: &mut Statement<'_>) -> Result<(), StmtCause>
    ensures { ReadsFreely (expected is_name) statement.old result statement.new }
{
    if !next_is_name(statement) {
        return Err(statement.other_token());
    }
    statement.advance();
    Ok(())
}
