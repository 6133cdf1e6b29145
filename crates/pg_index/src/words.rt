ghost use Rattle.std.specs.Prelude.{◌≡◌, ◌⊎◌, ◌<◌, ◌≤◌, ◌^◌, ◌++◌, ◌↔◌, ℕ, List, [], true, IsTrue, IfOk, IfErr, IfSome, IfNone};
ghost use Rattle.std.specs.Fmt.{decimal};
ghost use Rattle.pg_index.specs.Words.{IsFaulty, IsFaultlessBelow, IsInGrammar, IsUsageFault};
ghost use Rattle.pg_index.specs.Words.{IsOptionText, most_workers};
ghost use Rattle.pg_index.specs.Words.{heap_name, index_name, table_text, index_text};
ghost use Rattle.pg_index.specs.Words.{run_rows_of, texts_of, text_of, wants_claims, workers_of};
ghost use Rattle.pg_index.specs.Calls.Options.{AreInRange, BeginsAsDecimal, IsRepeatedText, IsUnknownText, IsWithOption, IsWithWord, Tells, has_kind};

use crate::built_index::Manner;

const BUILD: &str = "build";

const WORKERS: &str = "--workers=";

const RUN_ROWS: &str = "--run-rows=";

const CLAIMS: &str = "--claims";

// The most workers beside the leader, and how many there are by default.
const MOST_WORKERS: u32 = 31;

const DEFAULT_WORKERS: u32 = 2;

// The most rows of a sorted run, and how many it has by default.
const MOST_RUN_ROWS: u32 = 16_777_216;

const DEFAULT_RUN_ROWS: u32 = 65_536;

// How many words stand before the options.
const WORDS_BEFORE_OPTIONS: usize = 5;

/// What the words of `build` say: the names of two files, two statements, and the options.
#[derive(Clone, Copy, Debug)]
pub struct Build<'a> {
    pub heap: &'a str,
    pub index: &'a str,
    pub table_statement: &'a str,
    pub index_statement: &'a str,
    /// How many workers there are beside the leader.
    pub workers: u32,
    /// How many rows a sorted run has at most.
    pub run_rows: u32,
    /// Whether the claims are reported.
    pub claims: bool,
}

impl Build<'_> {
    ghost use Rattle.std.specs.Prelude.{◌≡◌};

    /// How the index is to be built.
    pub fn manner(&self) -> Manner
        ensures { result ≡ record {
          workers = self.now.workers;
          run_rows = self.now.run_rows;
          tells_claims = self.now.claims;
        } }
    {
        Manner {
            workers: self.workers,
            run_rows: self.run_rows,
            tells_claims: self.claims,
        }
    }
}

// An option, with its number where it has one.
#[derive(Clone, Copy, Debug)]
enum BuildOption {
    Workers(u32),
    RunRows(u32),
    Claims,
}

// The options that were given so far, each at most once.
#[derive(Clone, Copy, Debug)]
struct Given {
    workers: Option<u32>,
    run_rows: Option<u32>,
    claims: bool,
}

/// Reads the words of a command line, without the program's name. An error is the number of the
/// least word at fault, counted from 1.
pub fn read_words(words: &[String]) -> Result<Build<'_>, u32>
    ensures refused { IfErr result (λ fault. IsUsageFault (texts_of words.now) fault) }
    ensures grammar { IfOk result (λ build. IsInGrammar (texts_of words.now)) }
    ensures heap { IfOk result (λ build. build.heap.now ≡ heap_name (texts_of words.now)) }
    ensures index { IfOk result (λ build. build.index.now ≡ index_name (texts_of words.now)) }
    ensures table_statement { IfOk result (λ build.
        build.table_statement.now ≡ table_text (texts_of words.now)) }
    ensures index_statement { IfOk result (λ build.
        build.index_statement.now ≡ index_text (texts_of words.now)) }
    ensures workers { IfOk result (λ build. build.workers ≡ workers_of (texts_of words.now)) }
    ensures most_workers { IfOk result (λ build. build.workers ≤ most_workers) }
    ensures run_rows { IfOk result (λ build. build.run_rows ≡ run_rows_of (texts_of words.now)) }
    ensures least_run_rows { IfOk result (λ build. 1 ≤ build.run_rows) }
    ensures claims { IfOk result (λ build. build.claims ≡ wants_claims (texts_of words.now)) }
{
    if let Some(fault) = faulty_name(words) {
        return Err(fault);
    }
    let given = match read_options(words) {
        Ok(given) => given,
        Err(fault) => return Err(fault),
    };
    Ok(Build {
        heap: text(words, 2),
        index: text(words, 3),
        table_statement: text(words, 4),
        index_statement: text(words, 5),
        workers: given.workers.unwrap_or(DEFAULT_WORKERS),
        run_rows: given.run_rows.unwrap_or(DEFAULT_RUN_ROWS),
        claims: given.claims,
    })
}

/// A word by its number, counted from 1; empty where it is missing.
pub fn text(words: &[String], number: usize) -> &str
    requires { 0 < number }
    ensures { result.now ≡ text_of (texts_of words.now) number }
{
    match words.get(number - 1) {
        Some(word) => word.as_str(),
        None => "",
    }
}

// The least word at fault of the command, its two names and its two statements.
fn faulty_name(words: &[String]) -> Option<u32>
    ensures fault { IfSome result (λ fault. IsUsageFault (texts_of words.now) fault) }
    ensures none { IfNone result (IsFaultlessBelow (texts_of words.now) 6) }
{
    if lacks_command(words) {
        return Some(1);
    }
    if lacks_heap(words) {
        return Some(2);
    }
    if lacks_index(words) {
        return Some(3);
    }
    if words.len() < 4 {
        return Some(4);
    }
    if words.len() < 5 {
        return Some(5);
    }
    None
}

/// Whether there is no command, or another one than `build`.
pub fn lacks_command(words: &[String]) -> bool
    ensures { IsTrue result ↔ IsFaulty (texts_of words.now) 1 }
{
    text(words, 1) != BUILD
}

// The heap has no name.
fn lacks_heap(words: &[String]) -> bool
    ensures { IsTrue result ↔ IsFaulty (texts_of words.now) 2 }
{
    text(words, 2).is_empty()
}

// The index has no name, or that of the heap.
fn lacks_index(words: &[String]) -> bool
    ensures { IsTrue result ↔ IsFaulty (texts_of words.now) 3 }
{
    let index = text(words, 3);
    index.is_empty() || index == text(words, 2)
}

// The options, or the least word at fault of them.
fn read_options(words: &[String]) -> Result<Given, u32>
    requires { IsFaultlessBelow (texts_of words.now) 6 }
    ensures fault { IfErr result (λ fault. IsUsageFault (texts_of words.now) fault) }
    ensures grammar { IfOk result (λ given. IsInGrammar (texts_of words.now)) }
    ensures in_range { IfOk result AreInRange }
    ensures told { IfOk result (Tells (texts_of words.now) []) }
{
    let mut given = Given {
        workers: None,
        run_rows: None,
        claims: false,
    };
    for read in WORDS_BEFORE_OPTIONS..words.len() {
        match given_with_word(given, words[read].as_str()) {
            Some(more) => given = more,
            None => return Err(read as u32 + 1),
        }
    }
    Ok(given)
}

// What was given and this word's option more. None comes where the word is no option, or one of a
// kind that was given.
fn given_with_word(given: Given, word: &str) -> Option<Given>
    ensures some { IfSome result (IsWithWord given word.now) }
    ensures none { IfNone result (IsUnknownText word.now ⊎ IsRepeatedText given word.now) }
{
    match read_option(word) {
        Some(option) => given_with(given, option),
        None => None,
    }
}

// What was given and an option more. None comes where one of its kind was given.
fn given_with(given: Given, option: BuildOption) -> Option<Given>
    ensures some { IfSome result (IsWithOption given option) }
    ensures none { IfNone result (has_kind given option ≡ true) }
{
    match option {
        BuildOption::Workers(count) if given.workers.is_none() => Some(Given {
            workers: Some(count),
            ..given
        }),
        BuildOption::RunRows(rows) if given.run_rows.is_none() => Some(Given {
            run_rows: Some(rows),
            ..given
        }),
        BuildOption::Claims if !given.claims => Some(Given {
            claims: true,
            ..given
        }),
        _ => None,
    }
}

// The option that a word is.
fn read_option(word: &str) -> Option<BuildOption>
    ensures some { IfSome result (IsOptionText word.now) }
    ensures none { IfNone result (IsUnknownText word.now) }
{
    if word == CLAIMS {
        return Some(BuildOption::Claims);
    }
    if let Some(count) = read_number(word, WORKERS, 0, MOST_WORKERS) {
        return Some(BuildOption::Workers(count));
    }
    match read_number(word, RUN_ROWS, 1, MOST_RUN_ROWS) {
        Some(rows) => Some(BuildOption::RunRows(rows)),
        None => None,
    }
}

// The number between two others that stands behind a mark.
fn read_number(word: &str, mark: &str, least: u32, most: u32) -> Option<u32>
    ensures some { IfSome result (λ number.
        (word.now ≡ mark.now ++ decimal number) × (least ≤ number) × (number ≤ most)) }
    ensures none { IfNone result ((number : ℕ) → least ≤ number → number ≤ most
        → word.now ≡ mark.now ++ decimal number → ⊥) }
{
    let digits = match text_behind(word, mark) {
        Some(digits) => digits,
        None => return None,
    };
    match read_decimal(digits) {
        Some(number) if least <= number && number <= most => Some(number),
        _ => None,
    }
}

// What stands behind a mark.
fn text_behind<'a>(word: &'a str, mark: &str) -> Option<&'a str>
    ensures some { IfSome result (λ rest. word.now ≡ mark.now ++ rest.now) }
    ensures none { IfNone result ((rest : List ℕ) → word.now ≡ mark.now ++ rest → ⊥) }
{
    word.strip_prefix(mark)
}

// The number that a text is the decimal of, without a sign or a leading zero.
fn read_decimal(text: &str) -> Option<u32>
    ensures some { IfSome result (λ number. text.now ≡ decimal number) }
    ensures none { IfNone result ((number : ℕ) → number < 2 ^ 32 → text.now ≡ decimal number → ⊥) }
{
    if !begins_as_decimal(text.as_bytes()) {
        return None;
    }
    match text.parse::<u32>() {
        Ok(number) => Some(number),
        Err(_) => None,
    }
}

// Whether a text begins neither with a plus nor with a zero that others follow, which std reads.
fn begins_as_decimal(text: &[u8]) -> bool
    ensures { IsTrue result ↔ BeginsAsDecimal text.now }
{
    !text.is_empty() && text[0] != b'+' && (text[0] != b'0' || text.len() == 1)
}
