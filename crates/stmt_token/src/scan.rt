ghost use Rattle.std.specs.Prelude.{◌≡◌, ◌<◌, IfSome, length};
ghost use Rattle.stmt_token.specs.Pass.{IsPiece};
ghost use Rattle.stmt_token.specs.Tokens.{bad, first_number, first_quoted, first_sign, first_string, first_word, short_sign, string_end, token_with};

use crate::byte_class::ByteClass;
use crate::sign::{sign_of_byte, sign_of_pair};
use crate::token::Token;
use crate::value::{MOST_DIGITS, digits_value};

/// The bytes of the longest word and the longest quoted name (`NAMEDATALEN` less one).
const LONGEST_NAME: usize = 63;

/// The token at the front of a text, which doesn't begin with a blank, and how many bytes it takes.
pub fn first_token<'a>(first: u8, text: &'a [u8]) -> (Token<'a>, usize)
    requires { 0 < length text.now }
    ensures { IsPiece text.now result (token_with first text.now) }
{
    if ByteClass::WordStart.has(first) {
        first_word(text)
    } else if ByteClass::Digit.has(first) {
        first_number(text)
    } else if first == b'"' {
        first_quoted(text)
    } else if first == b'\'' {
        first_string(text)
    } else {
        first_sign(text)
    }
}

// A bad token, behind which nothing is read.
fn bad<'a>(text: &[u8]) -> (Token<'a>, usize)
    ensures { IsPiece text.now result (bad text.now) }
{
    (Token::Bad, text.len())
}

fn first_word(text: &[u8]) -> (Token<'_>, usize)
    ensures { IsPiece text.now result (first_word text.now) }
{
    let len = ByteClass::WordPart.run(text);
    if len <= LONGEST_NAME {
        (Token::Word(&text[..len]), len)
    } else {
        bad(text)
    }
}

fn first_number(text: &[u8]) -> (Token<'_>, usize)
    ensures { IsPiece text.now result (first_number text.now) }
{
    let len = ByteClass::Digit.run(text);
    if len <= MOST_DIGITS {
        (Token::Number(digits_value(&text[..len])), len)
    } else {
        bad(text)
    }
}

fn first_quoted(text: &[u8]) -> (Token<'_>, usize)
    requires { 0 < length text.now }
    ensures { IsPiece text.now result (first_quoted text.now) }
{
    let inside = &text[1..];
    let len = ByteClass::NamePart.run(inside);
    if len == 0 || len > LONGEST_NAME || len == inside.len() || inside[len] != b'"' {
        return bad(text);
    }
    (Token::Quoted(&inside[..len]), len + 2)
}

fn first_string(text: &[u8]) -> (Token<'_>, usize)
    requires { 0 < length text.now }
    ensures { IsPiece text.now result (first_string text.now) }
{
    let inside = &text[1..];
    match string_end(inside) {
        Some(end) => (Token::Text(&inside[..end]), end + 2),
        None => bad(text),
    }
}

fn first_sign(text: &[u8]) -> (Token<'_>, usize)
    ensures { IsPiece text.now result (first_sign text.now) }
{
    match text {
        [] => bad(text),
        [byte] => short_sign(*byte, text),
        [byte, next, ..] => match sign_of_pair(*byte, *next) {
            Some(sign) => (Token::Sign(sign), 2),
            None => short_sign(*byte, text),
        },
    }
}

fn short_sign<'a>(byte: u8, text: &[u8]) -> (Token<'a>, usize)
    requires { 0 < length text.now }
    ensures { IsPiece text.now result (short_sign byte text.now) }
{
    match sign_of_byte(byte) {
        Some(sign) => (Token::Sign(sign), 1),
        None => bad(text),
    }
}

// Where the quote stands that ends a string.
fn string_end(inside: &[u8]) -> Option<usize>
    ensures end { result ≡ string_end inside.now }
    ensures within { IfSome result (λ end. end < length inside.now) }
{
    let mut at = 0;
    while at < inside.len() {
        if inside[at] != b'\'' {
            at += 1;
        } else if at + 1 < inside.len() && inside[at + 1] == b'\'' {
            at += 2;
        } else {
            return Some(at);
        }
    }
    None
}
