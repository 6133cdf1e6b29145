//! The tokens of an SQL statement: the lower half of the reader of statements, so that the grammar
//! above it speaks of tokens alone.
//!
//! A text is blanks and tokens: words, quoted names, numbers, strings and signs, as in `scan.l`.
//! The one idea: a token goes on as long as it can. The byte at its front tells which kind it is,
//! and the first byte that can't carry it on ends it, so a text has its tokens in one way only.
//! Where no token stands, or one that breaks a limit, there is a bad token, and nothing is read
//! behind it: a statement's fault is told at its first byte.
//!
//! A `Reader` goes over the tokens of a text. It keeps the next token at hand, borrowed from the
//! text as it is spelt, so each byte is looked at once and no call takes memory. The invariant: the
//! token at hand and the tokens of what stands behind it are the tokens that are left. Words are
//! compared in lower case, and strings one quote for two, where they stand; only a name or a string
//! that is to be kept is copied.
//!
//! # What it promises
//!
//! A reader gives the tokens of its text, each with the place of its first byte. Each test and each
//! value of a token is exact. What the grammar above may rely on beyond that stands as laws, which
//! are functions that do nothing and whose contracts are the laws: what is spelt as tokens is read
//! as these tokens (`texts_are_read`), and what is read is spelt so (`texts_are_spelt`); neither
//! blanks nor the choice of a spelling count (`blanks_dont_count`); tokens that are printed are read
//! again (`tokens_are_printed`); and the names of a text can be printed (`names_can_be_quoted`).
//!
//! # What is not
//!
//! There are no comments, no escapes in strings, no dollar quotes, no numbers with a point, no
//! doubled `"` and no letters past ASCII: where PostgreSQL has one of these, here is a bad token or
//! several tokens. A text of more than 65,536 bytes is its caller's to refuse.
#![tactic(auto)]

mod byte_class;
mod laws;
mod reader;
mod scan;
mod sign;
mod token;
mod value;

pub use laws::{
    blanks_dont_count, names_can_be_quoted, texts_are_read, texts_are_spelt, tokens_are_printed,
};
pub use reader::{MOST_BYTES, Reader};
pub use sign::Sign;
pub use token::Token;
