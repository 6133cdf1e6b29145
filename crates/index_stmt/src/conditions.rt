ghost use Rattle.std.specs.Prelude.{◌≡◌, ◌≤◌, [], length};
ghost use Rattle.index_stmt.specs.Conditions.{cast, comparison, condition, conjunction, filter_rule, item, known_operator, literal, literal_in, null_test, operator_in, operator_of, test_rule, test_with, text_rule, truth_literal_in};
ghost use Rattle.index_stmt.specs.Pass.{Reads, ReadsFreely};
ghost use Rattle.index_stmt.specs.Rule.{meaning, token_as};

use crate::columns::known_column;
use crate::fault::{StmtCause, Stop};
use crate::list::pushed;
use crate::statement::Statement;
use crate::type_name::{number, type_name};
use opclass::{ColType, Compared, Cond, Filter, Op, Table, Test};
use pg_bytes::Items;
use std::alloc::Global;
use stmt_token::{Sign, Token};

/// How many parentheses may be open inside one another.
const MOST_OPEN: u8 = 16;

/// [WHERE conj]
#[tactic(auto, unfolding(crate::specs::Conditions::filter_rule))]
pub fn filter(alloc: Global, table: &Table, statement: &mut Statement<'_>) -> Result<Filter, Stop>
    requires { length table.now.columns ≤ 1600 }
    ensures { Reads (filter_rule table.now) statement.old result statement.new }
{
    let none = Items::new(alloc);
    if !statement.take_word(b"where") {
        return Ok(none);
    }
    conjunction(alloc, table, MOST_OPEN, none, statement)
}

// conj, where so many parentheses more may be open, behind these conditions
#[cycle(conditions)]
#[tactic(auto, unfolding(crate::specs::Conditions::conjunction))]
fn conjunction(
    alloc: Global,
    table: &Table,
    depth: u8,
    conditions: Filter,
    statement: &mut Statement<'_>,
) -> Result<Filter, Stop>
    requires { length table.now.columns ≤ 1600 }
    ensures { Reads (conjunction depth table.now conditions) statement.old result statement.new }
{
    let mut conditions = conditions;
    loop {
        conditions = item(alloc, table, depth, conditions, statement)?;
        if !statement.take_word(b"and") {
            return Ok(conditions);
        }
    }
}

// item, where so many parentheses more may be open, behind these conditions
#[cycle(conditions)]
#[tactic(auto, unfolding(crate::specs::Conditions::conjunction))]
fn item(
    alloc: Global,
    table: &Table,
    depth: u8,
    conditions: Filter,
    statement: &mut Statement<'_>,
) -> Result<Filter, Stop>
    requires { length table.now.columns ≤ 1600 }
    ensures { Reads (item depth table.now conditions) statement.old result statement.new }
{
    if depth == 0 {
        return condition(alloc, table, conditions, statement);
    }
    if !statement.take_sign(Sign::LeftParen) {
        return condition(alloc, table, conditions, statement);
    }
    let conditions = conjunction(alloc, table, depth - 1, conditions, statement)?;
    statement.sign(Sign::RightParen)?;
    Ok(conditions)
}

// name IS [NOT] NULL, or a comparison, behind these conditions
#[tactic(auto, unfolding(crate::specs::Conditions::condition))]
fn condition(
    alloc: Global,
    table: &Table,
    conditions: Filter,
    statement: &mut Statement<'_>,
) -> Result<Filter, Stop>
    requires { length table.now.columns ≤ 1600 }
    ensures { Reads (condition table.now conditions) statement.old result statement.new }
{
    let column = known_column(statement, table)?;
    let test = test(alloc, column.kind, statement)?;
    pushed(
        conditions,
        Cond {
            column: column.number,
            test,
        },
    )
}

// IS [NOT] NULL, or a comparison
fn test(alloc: Global, kind: ColType, statement: &mut Statement<'_>) -> Result<Test, Stop>
    ensures { Reads (test_rule kind) statement.old result statement.new }
{
    if statement.take_word(b"is") {
        return Ok(null_test(statement)?);
    }
    comparison(alloc, kind.facts().compared, statement)
}

// [NOT] NULL
#[tactic(auto, unfolding(crate::specs::Conditions::null_test))]
fn null_test(statement: &mut Statement<'_>) -> Result<Test, StmtCause>
    ensures { ReadsFreely null_test statement.old result statement.new }
{
    if statement.take_word(b"not") {
        statement.word(b"null")?;
        return Ok(Test::NotNull);
    }
    statement.word(b"null")?;
    Ok(Test::IsNull)
}

// (= <> != < <= > >=) literal ["::" type]
#[tactic(auto, unfolding(crate::specs::Conditions::comparison))]
fn comparison(
    alloc: Global,
    compared: Compared,
    statement: &mut Statement<'_>,
) -> Result<Test, Stop>
    ensures { Reads (comparison compared) statement.old result statement.new }
{
    let op = operator(compared, statement)?;
    let test = literal(alloc, compared, op, statement)?;
    cast(statement)?;
    Ok(test)
}

// An operator that a type takes.
fn operator(compared: Compared, statement: &mut Statement<'_>) -> Result<Op, StmtCause>
    ensures { ReadsFreely (meaning (token_as operator_in) (known_operator compared))
        statement.old result statement.new }
{
    let Token::Sign(sign) = statement.peek() else {
        return Err(statement.other_token());
    };
    let Some(op) = operator_of(sign) else {
        return Err(statement.other_token());
    };
    let op = known_operator(compared, op)?;
    statement.advance();
    Ok(op)
}

fn operator_of(sign: Sign) -> Option<Op>
    ensures { result ≡ operator_of sign }
{
    match sign {
        Sign::Equal => Some(Op::Eq),
        Sign::NotEqual => Some(Op::Ne),
        Sign::Less => Some(Op::Lt),
        Sign::LessEqual => Some(Op::Le),
        Sign::Greater => Some(Op::Gt),
        Sign::GreaterEqual => Some(Op::Ge),
        _ => None,
    }
}

fn known_operator(compared: Compared, op: Op) -> Result<Op, StmtCause>
    ensures { result ≡ known_operator compared op }
{
    match (compared, op) {
        (Compared::WithNumber | Compared::WithText, op)
        | (Compared::WithTruth, op @ (Op::Eq | Op::Ne)) => Ok(op),
        _ => Err(StmtCause::NotAllowed),
    }
}

// literal
#[tactic(auto, unfolding(crate::specs::Conditions::literal))]
fn literal(
    alloc: Global,
    compared: Compared,
    op: Op,
    statement: &mut Statement<'_>,
) -> Result<Test, Stop>
    ensures { Reads (literal compared op) statement.old result statement.new }
{
    if !statement.next_is_sign(Sign::Minus) {
        return unsigned_literal(alloc, compared, op, statement);
    }
    if compared != Compared::WithNumber {
        return Err(Stop::Fault(StmtCause::NotAllowed));
    }
    statement.advance();
    let number = number(statement)?;
    Ok(Test::Num {
        op,
        value: -(number as i64),
    })
}

// A literal that is one token.
fn unsigned_literal(
    alloc: Global,
    compared: Compared,
    op: Op,
    statement: &mut Statement<'_>,
) -> Result<Test, Stop>
    ensures { Reads (meaning (token_as literal_in) (test_with compared op))
        statement.old result statement.new }
{
    if let Some(number) = statement.next_number() {
        if compared != Compared::WithNumber {
            return Err(Stop::Fault(StmtCause::NotAllowed));
        }
        statement.advance();
        return Ok(Test::Num {
            op,
            value: number as i64,
        });
    }
    match statement.peek() {
        Token::Text(_) if compared == Compared::WithText => text_literal(alloc, op, statement),
        Token::Text(_) => Err(Stop::Fault(StmtCause::NotAllowed)),
        _ => Ok(truth_literal(compared, op, statement)?),
    }
}

// A string.
fn text_literal(alloc: Global, op: Op, statement: &mut Statement<'_>) -> Result<Test, Stop>
    ensures { Reads (text_rule op) statement.old result statement.new }
{
    match statement.peek().text(alloc)? {
        Some(value) => {
            statement.advance();
            Ok(Test::Raw { op, value })
        }
        None => Err(Stop::Fault(statement.other_token())),
    }
}

// TRUE or FALSE, where no number and no string stands.
fn truth_literal(
    compared: Compared,
    op: Op,
    statement: &mut Statement<'_>,
) -> Result<Test, StmtCause>
    ensures { ReadsFreely (meaning (token_as truth_literal_in) (test_with compared op))
        statement.old result statement.new }
{
    let truth = statement.next_is_word(b"true");
    if !truth && !statement.next_is_word(b"false") {
        return Err(statement.other_token());
    }
    if compared != Compared::WithTruth {
        return Err(StmtCause::NotAllowed);
    }
    statement.advance();
    Ok(Test::Num {
        op,
        value: i64::from(truth),
    })
}

// ["::" type]
#[tactic(auto, unfolding(crate::specs::Conditions::cast))]
fn cast(statement: &mut Statement<'_>) -> Result<(), StmtCause>
    ensures { ReadsFreely cast statement.old result statement.new }
{
    if statement.take_sign(Sign::TypeCast) {
        type_name(statement)?;
    }
    Ok(())
}
