ghost use Rattle.std.specs.Prelude.{◌≡◌, ◌↔◌, IsTrue, IfOk, Some, option_and_then};
ghost use Rattle.stmt_token.specs.Borrowed.{name_of, number_of, setting_of, text_of, value_of};
ghost use Rattle.stmt_token.specs.Tokens.{Sign as SignValue, Word as WordValue};

use crate::sign::Sign;
use crate::value::{copy, is_lowered, is_lowered_text, lowered, number_in, undoubled};
use pg_bytes::Bytes;
use std::alloc::{AllocError, Global};

/// A token as it stands in the text.
#[derive(Clone, Copy, Debug)]
pub enum Token<'a> {
    /// A word, not yet in lower case.
    Word(&'a [u8]),
    /// The bytes between the `"` of a quoted name.
    Quoted(&'a [u8]),
    Number(u64),
    /// The bytes between the `'` of a string, with two quotes for one.
    Text(&'a [u8]),
    Sign(Sign),
    /// No token stands here, or one that breaks a limit.
    Bad,
    /// The end of the text.
    End,
}

impl<'a> Token<'a> {
    /// Whether the token is this word. A word with a capital letter is never one, since words are
    /// taken in lower case.
    pub fn is_word(self, word: &[u8]) -> bool
        ensures { IsTrue result ↔ (value_of self.entry ≡ Some (WordValue word.now)) }
    {
        match self {
            Token::Word(bytes) => is_lowered(bytes, word),
            _ => false,
        }
    }

    /// Whether the token is this sign.
    pub fn is_sign(self, sign: Sign) -> bool
        ensures { IsTrue result ↔ (value_of self.entry ≡ Some (SignValue sign)) }
    {
        match self {
            Token::Sign(own) => own == sign,
            _ => false,
        }
    }

    /// Whether the token is a word or a quoted name that names this.
    pub fn is_name(self, name: &[u8]) -> bool
        ensures { IsTrue result ↔ (option_and_then name_of (value_of self.entry) ≡ Some name.now) }
    {
        match self {
            Token::Word(bytes) => is_lowered(bytes, name),
            Token::Quoted(bytes) => bytes == name,
            _ => false,
        }
    }

    /// The name that the token is, a word in lower case or a quoted name, or None where it is
    /// neither.
    pub fn name(self, alloc: Global) -> Result<Option<Bytes>, AllocError>
        ensures { IfOk result (λ name. name ≡ option_and_then name_of (value_of self.entry)) }
    {
        match self {
            Token::Word(bytes) => Ok(Some(lowered(alloc, bytes)?)),
            Token::Quoted(bytes) => Ok(Some(copy(alloc, bytes)?)),
            _ => Ok(None),
        }
    }

    /// The bytes of the string that the token is, or None where it is none.
    pub fn text(self, alloc: Global) -> Result<Option<Bytes>, AllocError>
        ensures { IfOk result (λ text. text ≡ option_and_then text_of (value_of self.entry)) }
    {
        match self {
            Token::Text(bytes) => Ok(Some(undoubled(alloc, bytes)?)),
            _ => Ok(None),
        }
    }

    /// The number that the token is, or that its string spells in 1 to 18 digits.
    #[tactic(auto, using(crate::proofs::Strings::same_number))]
    pub fn number(self) -> Option<u64>
        ensures { result ≡ option_and_then number_of (value_of self.entry) }
    {
        match self {
            Token::Number(number) => Some(number),
            Token::Text(bytes) => number_in(bytes),
            _ => None,
        }
    }

    /// Whether the token is this word, or a string that spells it in any case, as the value of an
    /// option may be (`defGetBoolean` of `define.c`).
    pub fn is_setting(self, word: &[u8]) -> bool
        ensures { IsTrue result
            ↔ (option_and_then setting_of (value_of self.entry) ≡ Some word.now) }
    {
        match self {
            Token::Word(bytes) => is_lowered(bytes, word),
            Token::Text(bytes) => is_lowered_text(bytes, word),
            _ => false,
        }
    }
}
