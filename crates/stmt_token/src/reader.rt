use crate::byte_class::ByteClass;
use crate::scan::first_token;
use crate::token::Token;
use std::marker::Model;

/// The most bytes of a text that is read.
pub const MOST_BYTES: usize = 65_536;

/// The tokens of a text that are left, with their places, and where the text ends. The next token
/// is at hand, so each is read once.
#[derive(Debug, Drop)]
pub struct Reader<'a> {
    token: Token<'a>,
    place: u32,
    left: &'a [u8],
    end: u32,
}

impl<'a> Model for Reader<'a> {
    ghost use Rattle.std.specs.Prelude.{◌-◌, length};
    ghost use Rattle.stmt_token.specs.Borrowed.{value_of};
    ghost use Rattle.stmt_token.specs.Pass.{followed, IsReader};
    ghost use Rattle.stmt_token.specs.Reading.{Reading};
    ghost use Rattle.stmt_token.specs.Tokens.{lexemes_from};

    ghost Value = { Reading };

    ghost view = { λ reader. record {
      lexemes = followed (value_of reader.token) reader.place
          (lexemes_from (reader.end - length reader.left.now) reader.left.now);
      end = reader.end;
    } };

    ghost invariant = { λ reader.
        IsReader reader.token reader.place (length reader.left.now) reader.end };
}

impl<'a> Reader<'a> {
    ghost use Rattle.std.specs.Prelude.{◌≡◌, ◌-◌, ◌≤◌, drop, length};
    ghost use Rattle.stmt_token.specs.Borrowed.{value_of};
    ghost use Rattle.stmt_token.specs.Reading.{next_place, next_token};
    ghost use Rattle.stmt_token.specs.Tokens.{lexemes_from, lexemes_of};

    /// A reader of all tokens of a text.
    pub fn of(text: &'a [u8]) -> Reader<'a>
        requires { length text.now ≤ MOST_BYTES }
        ensures { result ≡ record { lexemes = lexemes_of text.now; end = length text.now } }
    {
        Reader::reading(text, text.len() as u32)
    }

    // A reader of what is left of a text that ends at this place.
    fn reading(left: &'a [u8], end: u32) -> Reader<'a>
        requires left { length left.now ≤ end }
        requires end { end ≤ MOST_BYTES }
        ensures { result ≡ record {
          lexemes = lexemes_from (end - length left.now) left.now;
          end = end;
        } }
    {
        let left = &left[ByteClass::Blank.run(left)..];
        let place = end - left.len() as u32;
        let [first, ..] = left else {
            return Reader {
                token: Token::End,
                place,
                left,
                end,
            };
        };
        let (token, len) = first_token(*first, left);
        Reader {
            token,
            place,
            left: &left[len..],
            end,
        }
    }

    /// The next token, which stays the next one.
    pub fn peek(&self) -> Token<'a>
        ensures { value_of result ≡ next_token self.now.lexemes }
    {
        self.token
    }

    /// The place of the next token's first byte, or of the text's end.
    pub fn place(&self) -> u32
        ensures { result ≡ next_place self.now.lexemes self.now.end }
    {
        self.place
    }

    /// Takes the next token, if there is one.
    pub fn advance(&mut self)
        ensures { self.new ≡ record self.old { lexemes = drop 1 self.old.lexemes } }
    {
        *self = Reader::reading(self.left, self.end);
    }

    /// Takes the next token and gives it.
    pub fn next(&mut self) -> Token<'a>
        ensures token { value_of result ≡ next_token self.old.lexemes }
        ensures left { self.new ≡ record self.old { lexemes = drop 1 self.old.lexemes } }
    {
        let token = self.token;
        self.advance();
        token
    }

    /// A reader at the same token, to come back to.
    pub fn copy(&self) -> Reader<'a>
        ensures { result ≡ self.now }
    {
        Reader {
            token: self.token,
            place: self.place,
            left: self.left,
            end: self.end,
        }
    }
}
