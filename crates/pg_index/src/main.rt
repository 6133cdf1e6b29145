//! The program: a command line, the top call, and an exit status.
//!
//! A run goes through five stages, each a file of this crate with a contract of its own. The words
//! are read (`words`), and the two statements among them (`statements`); the heap file is read
//! whole (`heap_file`); the leader builds the index of its rows in memory, or tells what is refused
//! (`built_index`, over `build_leader`); and only when the index stands there, with its report
//! (`report`), is the index file created, written page by page, and the report said (`deliver`,
//! `index_file`).
//!
//! The invariant: until `deliver` nothing outside is changed, and from `deliver` on no memory is
//! taken.
//!
//! # What it promises
//!
//! All of it stands on `run`, the top call: what the words and the heap file come to
//! (`specs/Outcome.antt`), what a run answers to that, and what is outside afterwards
//! (`specs/Run.antt`). The laws (`laws`) say that they come to one thing at most.
//!
//! # What is not
//!
//! Whether memory is found. What a real file holds, which no clause can tell. Whether two names are
//! two files: `main` asks the operating system before the run (`same_file`), which doesn't notice
//! hard links, and an index that is written under one of the heap file replaces the heap.
#![tactic(auto)]

ghost use Rattle.std.specs.Prelude.{◌≡◌, ◌⊎◌, None, Some, OnErr, OnOk};
ghost use Rattle.std.specs.Process.{exit_status};
ghost use Rattle.pg_index.specs.Answer.{status_of, status_of_fault};

mod built_index;
mod command;
mod deliver;
mod ended;
mod fault;
mod heap_file;
mod help;
mod index_file;
mod laws;
mod report;
mod same_file;
mod statements;
#[cfg(test)]
mod tests;
mod words;

pub use block_claim::{Claim, Claims};
pub use build_leader::{Gate, NoGate};
pub use command::run;
pub use ended::Ended;
pub use fault::Fault;
use help::{HELP, VERSION};
pub use laws::outcome_is_determined;
use pg_files::RealFiles;
use same_file::is_heap_by_another_name;
use std::process::ExitCode;
use std::rt::Env;
use std::{env, io};

// The number of the word INDEX.
const INDEX_WORD: u32 = 3;

fn main(rt: HostRuntime) -> ExitCode {
    let words = match words_of(&rt) {
        Ok(words) => words,
        Err(fault) => return exit(&rt, &Some(fault)),
    };
    if let [word] = words.as_slice() {
        match word.as_str() {
            "--help" => return show(&rt, HELP),
            "--version" => return show(&rt, VERSION),
            _ => {}
        }
    }
    if is_heap_by_another_name(&rt, words.as_slice()) {
        return exit(&rt, &Some(Fault::Usage { word: INDEX_WORD }));
    }
    let mut files = RealFiles::new(&rt);
    let ended = run(&rt, rt.alloc(), &words, &mut files, &NoGate);
    exit(&rt, &ended.fault)
}

// The words of the command line without the program's name. Where one isn't text, the words are
// wrong from the first on.
fn words_of<R: Env + AllocGlobal>(rt: &R) -> Result<Vec<String>, Fault> {
    let all = match env::args(rt) {
        Ok(all) => all,
        Err(error) if error.kind() == io::ErrorKind::OutOfMemory => return Err(Fault::OutOfMemory),
        Err(_) => return Err(Fault::Usage { word: 1 }),
    };
    Ok(all.skip(1).collect(rt.alloc())?)
}

// Prints a text on standard output, and ends the program.
fn show(rt: &(impl Print + Eprint), text: &str) -> ExitCode
    ensures { (exit_status result ≡ status_of None)
        ⊎ (exit_status result ≡ status_of_fault Fault.WriteFault) }
{
    exit(rt, &print_fault(print!(rt; "{text}")))
}

// The fault of what was printed.
fn print_fault(printed: io::Result<()>) -> Option<Fault>
    ensures ok { OnOk printed (result ≡ None) }
    ensures err { OnErr printed (result ≡ Some Fault.WriteFault) }
{
    match printed {
        Ok(()) => None,
        Err(_) => Some(Fault::WriteFault),
    }
}

// Ends the program: a fault is told on standard error, and its status is the program's. Nobody is
// left to tell where the telling fails.
fn exit(rt: &impl Eprint, fault: &Option<Fault>) -> ExitCode
    ensures { exit_status result ≡ status_of fault.now }
{
    match fault {
        None => ExitCode::SUCCESS,
        Some(fault) => {
            let _ = eprintln!(rt; "{fault}");
            ExitCode::from(fault.status())
        }
    }
}
