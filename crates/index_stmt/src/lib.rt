//! The two statements of a build: CREATE TABLE, which says what columns the heap file's rows have,
//! and CREATE INDEX, which says what is built.
//!
//! The grammar is a part of PostgreSQL's (`gram.y`), and so are the rules of what is allowed: which
//! types a method takes as keys (`pg_opclass.dat`), which options it has (`reloptions.c`), how many
//! columns there may be. It stands in `specs/` as rules: a rule reads tokens from the left and gives
//! what they mean with the tokens behind them, or the cause of a fault with the tokens from the one
//! at fault on. Rules are put one behind another, so each reads as the grammar's line does.
//!
//! The one idea: meaning is looked at as each token is read. So the fault that is told is the first
//! in reading order, whatever is wrong: no token begins there, the grammar has another one there, or
//! what the token means isn't allowed. A fault that shows only later is told where it began: a type
//! that stops before it is whole at its first token, a name of another table at the name. Places
//! aren't in the grammar at all: a fault is told at the token at which so many tokens are left.
//!
//! The functions are the rules once more, a function each. The invariant: a `Statement` has a text
//! and ends of its tokens, and at a fault it stands at the token at fault, so that the place is
//! read off there.
//!
//! # What it promises
//!
//! - `read_table` and `read_index` give what the grammar makes of the text, or its first fault with
//!   the place and the cause's number, or say that memory ran out.
//! - A table that is given has 1 to 1,600 columns, no two of one name (`IsTable`). An index that is
//!   given over it has columns of the table, of types that the method takes, options in their
//!   ranges, what only other methods have as it is where nothing is said, and conditions that fit
//!   their columns (`IsIndexOver`). The names of both can be quoted (`HasNames`, `IsNamed`).
//! - A statement of more than 65,536 bytes is refused before all else.
//! - A text has a table, or a fault, and never both or two of either (`a_text_is_one_table`,
//!   `a_text_is_one_index`); only its tokens count, so that blanks and the case of words change
//!   nothing (`only_tokens_count_for_a_table`, `only_tokens_count_for_an_index`).
//! - Nothing of this is refused for another reason than the limit of bytes: each such table whose
//!   names can be quoted is what its printed statement is read as (`tables_are_printed`), and so is
//!   each such index over it (`indexes_are_printed`).
//!
//! # What is not
//!
//! - Of PostgreSQL's two statements: CONCURRENTLY, TABLESPACE, ONLY, IF NOT EXISTS, expressions,
//!   named operator classes and their parameters, constraints and defaults, collations other than
//!   "C", and types that aren't in the table of types.
//! - The schema before a table's name isn't looked at, and COLLATE, NOT NULL, NULL and casts of
//!   literals change nothing.
//! - Whether memory is found isn't said. None is taken beyond what is given back.
#![tactic(auto)]

mod columns;
mod conditions;
mod fault;
mod index_statement;
mod laws;
mod list;
mod names;
mod options;
mod read;
mod statement;
mod table_statement;
mod type_name;

pub use fault::{ReadStmt, StmtCause, StmtFault};
pub use laws::{
    a_text_is_one_index, a_text_is_one_table, indexes_are_printed, only_tokens_count_for_a_table,
    only_tokens_count_for_an_index, tables_are_printed,
};
pub use read::{read_index, read_table};
