use crate::fault::StmtCause;
use std::marker::Model;
use stmt_token::{Reader, Sign, Token};

/// More than the greatest number, which has 18 digits.
const NUMBERS: u64 = 1_000_000_000_000_000_000;

/// A statement that is being read: its text, and the tokens that are left of it.
#[derive(Debug, Drop)]
pub struct Statement<'a> {
    text: &'a [u8],
    reader: Reader<'a>,
}

impl<'a> Model for Statement<'a> {
    ghost use Rattle.index_stmt.specs.Pass.{Ahead, EndText, tokens_in};

    ghost Value = { Ahead };

    ghost view = { λ statement. record {
      text = statement.text.now;
      tokens = tokens_in statement.reader.lexemes;
    } };

    ghost invariant = { λ statement.
        EndText statement.text.now statement.reader.lexemes statement.reader.end };
}

impl<'a> Statement<'a> {
    ghost use Rattle.std.specs.Prelude.{◌≡◌, ◌≤◌, ◌<◌, if◌then◌else◌, length, option_and_then, IfSome};
    ghost use Rattle.std.specs.List.{list_any};
    ghost use Rattle.stmt_token.specs.Borrowed.{value_of};
    ghost use Rattle.stmt_token.specs.Tokens.{tokens_of};
    ghost use Rattle.index_stmt.specs.Faults.{place_before};
    ghost use Rattle.index_stmt.specs.TypeNames.{number_in};
    ghost use Rattle.index_stmt.specs.Pass.{ReadsFreely, after_one, next_of};
    ghost use Rattle.index_stmt.specs.Rule.{cause_of_other, is_sign, is_word, next_is, sign, word};

    /// A statement of which nothing is read yet.
    pub fn of(text: &'a [u8]) -> Statement<'a>
        requires { length text.now ≤ 65536 }
        ensures { result ≡ record { text = text.now; tokens = tokens_of text.now } }
    {
        Statement {
            text,
            reader: Reader::of(text),
        }
    }

    /// The same statement, with the same tokens left.
    pub fn copy(&self) -> Statement<'a>
        ensures { result ≡ self.now }
    {
        Statement {
            text: self.text,
            reader: self.reader.copy(),
        }
    }

    /// The next token, which stays the next one.
    pub fn peek(&self) -> Token<'a>
        ensures { value_of result ≡ next_of self.now.tokens }
    {
        self.reader.peek()
    }

    /// The number that the next token is.
    pub fn next_number(&self) -> Option<u64>
        ensures number { result ≡ option_and_then number_in (next_of self.now.tokens) }
        ensures small { IfSome result (λ number. number < 1000000000000000000) }
    {
        match self.reader.peek() {
            Token::Number(number) if number < NUMBERS => Some(number),
            _ => None,
        }
    }

    /// The place of the next token, or of the statement's end.
    pub fn place(&self) -> u32
        ensures { result ≡ place_before self.now.text (length self.now.tokens) }
    {
        self.reader.place()
    }

    /// Takes the next token, if there is one.
    pub fn advance(&mut self)
        ensures { self.new ≡ after_one self.old }
    {
        self.reader.advance();
    }

    /// Why the next token isn't what the grammar has there.
    pub fn other_token(&self) -> StmtCause
        ensures { result ≡ cause_of_other self.now.tokens }
    {
        match self.peek() {
            Token::Bad => StmtCause::NoToken,
            _ => StmtCause::Unexpected,
        }
    }

    /// Whether the next token is this word.
    pub fn next_is_word(&self, word: &[u8]) -> bool
        ensures { result ≡ next_is (is_word word.now) self.now.tokens }
    {
        self.peek().is_word(word)
    }

    /// Whether the next token is this sign.
    pub fn next_is_sign(&self, sign: Sign) -> bool
        ensures { result ≡ next_is (is_sign sign) self.now.tokens }
    {
        self.peek().is_sign(sign)
    }

    /// Takes the next token if it is this word, and says whether it is.
    pub fn take_word(&mut self, word: &[u8]) -> bool
        ensures found { result ≡ next_is (is_word word.now) self.old.tokens }
        ensures left { self.new ≡ (if result then after_one self.old else self.old) }
    {
        let found = self.next_is_word(word);
        if found {
            self.advance();
        }
        found
    }

    /// Takes the next token if it is this sign, and says whether it is.
    pub fn take_sign(&mut self, sign: Sign) -> bool
        ensures found { result ≡ next_is (is_sign sign) self.old.tokens }
        ensures left { self.new ≡ (if result then after_one self.old else self.old) }
    {
        let found = self.next_is_sign(sign);
        if found {
            self.advance();
        }
        found
    }

    /// Whether the next token is one of these words.
    pub fn next_is_among(&self, words: &[&[u8]]) -> bool
        ensures { result ≡ list_any (λ word. next_is (is_word word.now) self.now.tokens) words.now }
    {
        words.iter().any(|word| self.next_is_word(word))
    }

    /// Takes this word, which has to be the next token.
    pub fn word(&mut self, text: &[u8]) -> Result<(), StmtCause>
        ensures { ReadsFreely (word text.now) self.old result self.new }
    {
        if self.take_word(text) {
            Ok(())
        } else {
            Err(self.other_token())
        }
    }

    /// Takes this sign, which has to be the next token.
    pub fn sign(&mut self, wanted: Sign) -> Result<(), StmtCause>
        ensures { ReadsFreely (sign wanted) self.old result self.new }
    {
        if self.take_sign(wanted) {
            Ok(())
        } else {
            Err(self.other_token())
        }
    }
}
