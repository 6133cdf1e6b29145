//! What holds of the tokens of texts, whatever the texts are.

ghost use Rattle.stmt_token.specs.Laws.{BlanksDontCount, NamesCanBeQuoted, TextsAreRead, TextsAreSpelt, TokensArePrinted};

/// What is spelt as tokens is read as these tokens, and no others.
pub fn texts_are_read()
    ensures { TextsAreRead }
{}

/// What is read as tokens, none of them bad, is spelt as these tokens.
pub fn texts_are_spelt()
    ensures { TextsAreSpelt }
{}

/// Neither the blanks between tokens count nor which spelling of a token is taken.
pub fn blanks_dont_count()
    ensures { BlanksDontCount }
{}

/// Tokens that are printed, with a space behind each, are read again.
pub fn tokens_are_printed()
    ensures { TokensArePrinted }
{}

/// The words and the quoted names of a text are names that can be quoted: each of them can be
/// printed.
pub fn names_can_be_quoted()
    ensures { NamesCanBeQuoted }
{}
