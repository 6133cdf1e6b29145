ghost use Rattle.std.specs.Prelude.{◌≡◌, ◌<◌, IfOk, option_and_then};
ghost use Rattle.index_stmt.specs.Pass.{ReadsFreely, next_of, started};
ghost use Rattle.index_stmt.specs.Rule.{next_is, token_as};
ghost use Rattle.index_stmt.specs.TypeNames.{begins_type, element_or_array, number, precision, size, sized, start_in, time, time_zone, timestamp, type_behind, type_name, type_spelling};

use crate::fault::StmtCause;
use crate::statement::Statement;
use opclass::ColType;
use stmt_token::{Sign, Token};

/// How a type goes on behind the word that begins it.
#[derive(Clone, Copy, Debug, PartialEq, Eq)]
pub enum TypeStart {
    /// The word is the type.
    Whole(ColType),
    /// The word is the type, and with `[]` behind it the type of its arrays.
    Element(ColType, ColType),
    /// The word is the type, and may have a size behind it.
    Sized(ColType),
    /// CHARACTER, with VARYING or without, and then a size.
    Character,
    /// NUMERIC or DECIMAL, with one or two numbers.
    Decimal,
    /// DOUBLE, and then PRECISION.
    Double,
    /// TIME, with a size, WITHOUT TIME ZONE or neither.
    Time,
    /// TIMESTAMP, with a size, WITH or WITHOUT TIME ZONE.
    Timestamp,
}

/// The words that begin a type.
const TYPE_WORDS: [(&[u8], TypeStart); 31] = [
    (b"bool", TypeStart::Whole(ColType::Bool)),
    (b"boolean", TypeStart::Whole(ColType::Bool)),
    (b"int2", TypeStart::Whole(ColType::Int2)),
    (b"smallint", TypeStart::Whole(ColType::Int2)),
    (
        b"int4",
        TypeStart::Element(ColType::Int4, ColType::Int4Array),
    ),
    (
        b"int",
        TypeStart::Element(ColType::Int4, ColType::Int4Array),
    ),
    (
        b"integer",
        TypeStart::Element(ColType::Int4, ColType::Int4Array),
    ),
    (
        b"int8",
        TypeStart::Element(ColType::Int8, ColType::Int8Array),
    ),
    (
        b"bigint",
        TypeStart::Element(ColType::Int8, ColType::Int8Array),
    ),
    (b"oid", TypeStart::Whole(ColType::Oid)),
    (b"date", TypeStart::Whole(ColType::Date)),
    (b"timestamp", TypeStart::Timestamp),
    (b"timestamptz", TypeStart::Whole(ColType::Timestamptz)),
    (b"time", TypeStart::Time),
    (b"uuid", TypeStart::Whole(ColType::Uuid)),
    (
        b"text",
        TypeStart::Element(ColType::Text, ColType::TextArray),
    ),
    (b"varchar", TypeStart::Sized(ColType::Varchar)),
    (b"character", TypeStart::Character),
    (b"char", TypeStart::Sized(ColType::Bpchar)),
    (b"bpchar", TypeStart::Whole(ColType::Bpchar)),
    (b"bytea", TypeStart::Whole(ColType::Bytea)),
    (b"float4", TypeStart::Whole(ColType::Float4)),
    (b"real", TypeStart::Whole(ColType::Float4)),
    (b"float8", TypeStart::Whole(ColType::Float8)),
    (b"double", TypeStart::Double),
    (b"numeric", TypeStart::Decimal),
    (b"decimal", TypeStart::Decimal),
    (b"name", TypeStart::Whole(ColType::Name)),
    (b"interval", TypeStart::Whole(ColType::Interval)),
    (b"json", TypeStart::Whole(ColType::Json)),
    (b"jsonb", TypeStart::Whole(ColType::Jsonb)),
];

/// type
#[tactic(auto, unfolding(crate::specs::TypeNames::type_name))]
pub fn type_name<'a>(statement: &mut Statement<'a>) -> Result<ColType, StmtCause>
    ensures { ReadsFreely type_name statement.old result statement.new }
{
    if !begins_type(statement) {
        return Err(statement.other_token());
    }
    let begun = statement.copy();
    match spelling(statement) {
        Ok(kind) => Ok(kind),
        Err(StmtCause::NoToken) => Err(StmtCause::NoToken),
        Err(_) => {
            *statement = begun;
            Err(StmtCause::UnknownType)
        }
    }
}

// Whether a type may begin with the next token.
fn begins_type(statement: &Statement<'_>) -> bool
    ensures { result ≡ next_is begins_type statement.now.tokens }
{
    matches!(statement.peek(), Token::Word(_) | Token::Quoted(_))
}

// The word that begins a type, and what stands behind it.
fn spelling(statement: &mut Statement<'_>) -> Result<ColType, StmtCause>
    ensures { ReadsFreely type_spelling statement.old result statement.new }
{
    let start = type_start(statement)?;
    type_behind(start, statement)
}

// The word that begins a type.
fn type_start(statement: &mut Statement<'_>) -> Result<TypeStart, StmtCause>
    ensures { ReadsFreely (token_as start_in) statement.old result statement.new }
{
    match next_start(statement) {
        Some(start) => {
            statement.advance();
            Ok(start)
        }
        None => Err(statement.other_token()),
    }
}

// How a type goes on that begins with the next token.
fn next_start(statement: &Statement<'_>) -> Option<TypeStart>
    ensures { result ≡ option_and_then start_in (next_of statement.now.tokens) }
{
    start_among(&TYPE_WORDS, statement)
}

// How a type goes on that begins with the next token, by these words.
#[tactic(auto, unfolding(crate::specs::Pass::started))]
fn start_among(rows: &[(&[u8], TypeStart)], statement: &Statement<'_>) -> Option<TypeStart>
    ensures { result ≡ started rows.now statement.now.tokens }
{
    rows.iter()
        .find(|row| statement.next_is_word(row.0))
        .map(|row| row.1)
}

// What stands behind the word that begins a type.
#[tactic(auto, unfolding(crate::specs::TypeNames::type_behind))]
fn type_behind(start: TypeStart, statement: &mut Statement<'_>) -> Result<ColType, StmtCause>
    ensures { ReadsFreely (type_behind start) statement.old result statement.new }
{
    match start {
        TypeStart::Whole(kind) => Ok(kind),
        TypeStart::Element(kind, array) => array_or(kind, array, statement),
        TypeStart::Sized(kind) => sized(kind, statement),
        TypeStart::Character if statement.take_word(b"varying") => {
            sized(ColType::Varchar, statement)
        }
        TypeStart::Character => sized(ColType::Bpchar, statement),
        TypeStart::Decimal => {
            precision(statement)?;
            Ok(ColType::Numeric)
        }
        TypeStart::Double => {
            statement.word(b"precision")?;
            Ok(ColType::Float8)
        }
        TypeStart::Time => time(statement),
        TypeStart::Timestamp => timestamp(statement),
    }
}

// ["[" "]"]
fn array_or(
    kind: ColType,
    array: ColType,
    statement: &mut Statement<'_>,
) -> Result<ColType, StmtCause>
    ensures { ReadsFreely (element_or_array kind array) statement.old result statement.new }
{
    if !statement.take_sign(Sign::LeftBracket) {
        return Ok(kind);
    }
    statement.sign(Sign::RightBracket)?;
    Ok(array)
}

fn sized(kind: ColType, statement: &mut Statement<'_>) -> Result<ColType, StmtCause>
    ensures { ReadsFreely (sized kind) statement.old result statement.new }
{
    size(statement)?;
    Ok(kind)
}

// [(n)]
#[tactic(auto, unfolding(crate::specs::TypeNames::size))]
fn size(statement: &mut Statement<'_>) -> Result<(), StmtCause>
    ensures { ReadsFreely size statement.old result statement.new }
{
    if !statement.take_sign(Sign::LeftParen) {
        return Ok(());
    }
    number(statement)?;
    statement.sign(Sign::RightParen)
}

// [(n [, n])]
#[tactic(auto, unfolding(crate::specs::TypeNames::precision))]
fn precision(statement: &mut Statement<'_>) -> Result<(), StmtCause>
    ensures { ReadsFreely precision statement.old result statement.new }
{
    if !statement.take_sign(Sign::LeftParen) {
        return Ok(());
    }
    number(statement)?;
    if statement.take_sign(Sign::Comma) {
        number(statement)?;
    }
    statement.sign(Sign::RightParen)
}

/// A number.
pub fn number(statement: &mut Statement<'_>) -> Result<u64, StmtCause>
    ensures read { ReadsFreely number statement.old result statement.new }
    ensures small { IfOk result (λ number. number < 1000000000000000000) }
{
    match statement.next_number() {
        Some(number) => {
            statement.advance();
            Ok(number)
        }
        None => Err(statement.other_token()),
    }
}

// [(n)] [without time zone]
#[tactic(auto, unfolding(crate::specs::TypeNames::time))]
fn time(statement: &mut Statement<'_>) -> Result<ColType, StmtCause>
    ensures { ReadsFreely time statement.old result statement.new }
{
    size(statement)?;
    if statement.take_word(b"without") {
        time_zone(statement)?;
    }
    Ok(ColType::Time)
}

// [(n)] [(with | without) time zone]
#[tactic(auto, unfolding(crate::specs::TypeNames::timestamp))]
fn timestamp(statement: &mut Statement<'_>) -> Result<ColType, StmtCause>
    ensures { ReadsFreely timestamp statement.old result statement.new }
{
    size(statement)?;
    if statement.take_word(b"with") {
        time_zone(statement)?;
        return Ok(ColType::Timestamptz);
    }
    if statement.take_word(b"without") {
        time_zone(statement)?;
    }
    Ok(ColType::Timestamp)
}

// time zone
#[tactic(auto, unfolding(crate::specs::TypeNames::time_zone))]
fn time_zone(statement: &mut Statement<'_>) -> Result<(), StmtCause>
    ensures { ReadsFreely time_zone statement.old result statement.new }
{
    statement.word(b"time")?;
    statement.word(b"zone")
}
