ghost use Rattle.std.specs.Prelude.{◌≡◌, ◌≤◌, option_and_then, IfOk};
ghost use Rattle.stmt_token.specs.Borrowed.{value_of};
ghost use Rattle.index_stmt.specs.Names.{word_in};
ghost use Rattle.index_stmt.specs.Options.{in_range, is_set, known_option, option, option_list, option_named, options, truth_in, unset, value_in, with_option, with_value};
ghost use Rattle.index_stmt.specs.Pass.{ReadsFreely, next_of};
ghost use Rattle.index_stmt.specs.Rule.{is_sign, meaning, separated, token_as};
ghost use Rattle.stmt_token.specs.declared.sign.Sign.TheVariants.{Comma};

use crate::fault::StmtCause;
use crate::statement::Statement;
use opclass::Method;
use stmt_token::{Sign, Token};

/// The options that are built.
#[derive(Clone, Copy, Debug, PartialEq, Eq)]
pub enum OptionName {
    Fillfactor,
    DeduplicateItems,
    PagesPerRange,
    Fastupdate,
}

/// The options that a statement sets.
#[derive(Clone, Copy, Debug, PartialEq, Eq)]
pub struct Settings {
    pub fillfactor: Option<u8>,
    pub deduplicate_items: Option<bool>,
    pub pages_per_range: Option<u32>,
    /// Without effect, since an index that is built has no pending list.
    pub fastupdate: Option<bool>,
}

/// No option is set.
const UNSET: Settings = Settings {
    fillfactor: None,
    deduplicate_items: None,
    pages_per_range: None,
    fastupdate: None,
};

/// [WITH "(" option {"," option} ")"]
#[tactic(auto, unfolding(crate::specs::Options::options))]
pub fn options(method: Method, statement: &mut Statement<'_>) -> Result<Settings, StmtCause>
    ensures { ReadsFreely (options method) statement.old result statement.new }
{
    if !statement.take_word(b"with") {
        return Ok(UNSET);
    }
    option_list(method, statement)
}

// "(" option {"," option} ")"
#[tactic(auto, unfolding(crate::specs::Options::option_list))]
fn option_list(method: Method, statement: &mut Statement<'_>) -> Result<Settings, StmtCause>
    ensures { ReadsFreely (option_list method) statement.old result statement.new }
{
    statement.sign(Sign::LeftParen)?;
    let settings = listed(method, statement)?;
    statement.sign(Sign::RightParen)?;
    Ok(settings)
}

// option {"," option}
fn listed(method: Method, statement: &mut Statement<'_>) -> Result<Settings, StmtCause>
    ensures { ReadsFreely (separated (is_sign Comma) (option method) unset)
        statement.old result statement.new }
{
    let mut settings = UNSET;
    loop {
        settings = option(method, settings, statement)?;
        if !statement.take_sign(Sign::Comma) {
            return Ok(settings);
        }
    }
}

// option, behind these
#[tactic(auto, unfolding(crate::specs::Options::option))]
fn option(
    method: Method,
    settings: Settings,
    statement: &mut Statement<'_>,
) -> Result<Settings, StmtCause>
    ensures { ReadsFreely (option method settings) statement.old result statement.new }
{
    let name = option_name(method, settings, statement)?;
    statement.sign(Sign::Equal)?;
    option_value(settings, name, statement)
}

// The word of an option that isn't set yet.
fn option_name(
    method: Method,
    settings: Settings,
    statement: &mut Statement<'_>,
) -> Result<OptionName, StmtCause>
    ensures { ReadsFreely (meaning (token_as word_in) (known_option method settings))
        statement.old result statement.new }
{
    let Token::Word(_) = statement.peek() else {
        return Err(statement.other_token());
    };
    let Some(name) = next_option(method, statement) else {
        return Err(StmtCause::NotAllowed);
    };
    if settings.has(name) {
        return Err(StmtCause::Repeated);
    }
    statement.advance();
    Ok(name)
}

// The option that the next word is, of this method.
fn next_option(method: Method, statement: &Statement<'_>) -> Option<OptionName>
    ensures { result ≡ option_and_then (option_named method)
        (option_and_then word_in (next_of statement.now.tokens)) }
{
    match method {
        Method::BTree if statement.next_is_word(b"fillfactor") => Some(OptionName::Fillfactor),
        Method::BTree if statement.next_is_word(b"deduplicate_items") => {
            Some(OptionName::DeduplicateItems)
        }
        Method::Brin if statement.next_is_word(b"pages_per_range") => {
            Some(OptionName::PagesPerRange)
        }
        Method::Gin if statement.next_is_word(b"fastupdate") => Some(OptionName::Fastupdate),
        _ => None,
    }
}

// The value of an option, which is set to it.
fn option_value(
    settings: Settings,
    name: OptionName,
    statement: &mut Statement<'_>,
) -> Result<Settings, StmtCause>
    ensures { ReadsFreely (meaning (token_as value_in) (with_option settings name))
        statement.old result statement.new }
{
    let token = statement.peek();
    let (Token::Number(_) | Token::Word(_) | Token::Text(_)) = token else {
        return Err(statement.other_token());
    };
    let settings = settings.with(name, token)?;
    statement.advance();
    Ok(settings)
}

impl Settings {
    // Whether an option is set.
    fn has(self, name: OptionName) -> bool
        ensures { result ≡ is_set self name }
    {
        match name {
            OptionName::Fillfactor => self.fillfactor.is_some(),
            OptionName::DeduplicateItems => self.deduplicate_items.is_some(),
            OptionName::PagesPerRange => self.pages_per_range.is_some(),
            OptionName::Fastupdate => self.fastupdate.is_some(),
        }
    }

    // The options with one more.
    fn with(self, name: OptionName, value: Token<'_>) -> Result<Settings, StmtCause>
        ensures { result ≡ with_value self name (value_of value.entry) }
    {
        match name {
            OptionName::Fillfactor => {
                let percent = in_range(10, 100, value.number())?;
                Ok(Settings {
                    fillfactor: Some(percent as u8),
                    ..self
                })
            }
            OptionName::DeduplicateItems => {
                let on = truth_in(value).ok_or(StmtCause::OutOfRange)?;
                Ok(Settings {
                    deduplicate_items: Some(on),
                    ..self
                })
            }
            OptionName::PagesPerRange => {
                let pages = in_range(1, 131_072, value.number())?;
                Ok(Settings {
                    pages_per_range: Some(pages),
                    ..self
                })
            }
            OptionName::Fastupdate => {
                let on = truth_in(value).ok_or(StmtCause::OutOfRange)?;
                Ok(Settings {
                    fastupdate: Some(on),
                    ..self
                })
            }
        }
    }
}

// A number in a range.
fn in_range(low: u32, high: u32, number: Option<u64>) -> Result<u32, StmtCause>
    ensures number { result ≡ in_range low high number }
    ensures small { IfOk result (λ number. number ≤ high) }
{
    match number {
        Some(number) if u64::from(low) <= number && number <= u64::from(high) => Ok(number as u32),
        _ => Err(StmtCause::OutOfRange),
    }
}

// The truth value that a value is, or spells.
fn truth_in(value: Token<'_>) -> Option<bool>
    ensures { result ≡ option_and_then truth_in (value_of value.entry) }
{
    if value.is_setting(b"on") || value.is_setting(b"true") {
        Some(true)
    } else if value.is_setting(b"off") || value.is_setting(b"false") {
        Some(false)
    } else {
        None
    }
}
