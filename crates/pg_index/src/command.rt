ghost use Rattle.std.specs.Prelude.{◌≡◌, ◌↔◌, ℕ, List, Some, None, IsErrOf, IsSome, IfErr, IfOk};
ghost use Rattle.index_stmt.specs.declared.fault.StmtFault.{StmtFault};
ghost use Rattle.pg_files.specs.Faults.{IsAnswerToOutputFaults, IsAnswerToReadFaults};
ghost use Rattle.pg_files.specs.Outside.{FileMap};
ghost use Rattle.pg_index.specs.Answer.{status_of};
ghost use Rattle.pg_index.specs.Calls.BuiltIndex.{told_of_index};
ghost use Rattle.pg_index.specs.End.{told_by};
ghost use Rattle.pg_index.specs.Headline.{Headline};
ghost use Rattle.pg_index.specs.Outcome.{Asks, HasOutcome, Outcome};
ghost use Rattle.pg_index.specs.Run.{Ends, IsAnswered, nothing};
ghost use Rattle.pg_index.specs.Words.{IsUsageFault, heap_name, index_name, texts_of};
ghost use Rattle.pg_index.specs.declared.statements.Asked.{Asked};

use crate::built_index::{BuiltIndex, build_index};
use crate::deliver::deliver;
use crate::ended::Ended;
use crate::fault::Fault;
use crate::heap_file::read_heap;
use crate::statements::read_statements;
use crate::words::read_words;
use build_leader::Gate;
use pg_files::Files;
use std::alloc::Global;
use std::thread::Threads;

/// Carries out a command line, which comes without the program's name. It reads the heap whole,
/// makes the index in memory, and only then creates the index file, writes it page by page, and
/// says one line of what was built.
///
/// All memory is taken before the index file is created, so that every fault but a write fault
/// leaves the outside as it was. After a write fault the index file is as before or holds a front
/// of the index, and no report was said unless it holds the index whole. A run may give up for
/// want of memory once the words are in order; every other fault comes exactly where its clause
/// says.
///
/// A heap comes to one outcome at most (`outcome_is_determined`). So where the files are told, each
/// refusal comes exactly where its outcome holds, unless the heap can't be read or memory runs out,
/// and a build without a fault inside or outside ends with status 0 or for want of memory.
pub fn run<Rt: Threads + Sync, F: Files, G: Gate + Sync>(
    rt: &Rt,
    alloc: Global,
    words: &[String],
    files: &mut F,
    gate: &G,
) -> Ended
    // What it came to, and what it left outside.
    ensures ends { Ends (texts_of words.now) (F.outside files.old) (F.outside files.new)
        (told_by result) result.fault }

    // What it answers where words and heap file come to this.
    ensures exact { (told : FileMap) (outcome : Outcome)
        → (F.outside files.old).files ≡ Some told
        → HasOutcome (texts_of words.now) (Some told) outcome
        → IsAnswered outcome result.fault }

    // What holds for every heap, table and index, whoever claims which of its blocks: what a built
    // index has, and where a unique one is refused.
    ensures headline { (told : FileMap) (heap : List ℕ) (asked : Asked)
        → (F.outside files.old).files ≡ Some told
        → told (heap_name (texts_of words.now)) ≡ Some heap
        → Asks (texts_of words.now) asked
        → Headline (texts_of words.now) asked heap (F.outside files.old) (F.outside files.new)
        (told_by result) result.fault }

    // When each fault comes that the words or the outside decide.
    ensures usage { (fault : ℕ)
        → (result.fault ≡ Some (Fault.Usage fault)) ↔ IsUsageFault (texts_of words.now) fault }
    ensures statement { (fault : StmtFault) → result.fault ≡ Some (Fault.Statement fault)
        → HasOutcome (texts_of words.now) None (Outcome.Statement fault) }
    ensures read_fault { IsAnswerToReadFaults (result.fault ≡ Some Fault.ReadFault)
        (heap_name (texts_of words.now)) (F.outside files.old) (F.outside files.new) }
    ensures write_fault { IsAnswerToOutputFaults (result.fault ≡ Some Fault.WriteFault)
        (index_name (texts_of words.now)) (F.outside files.old) (F.outside files.new) }

    // What else the end tells.
    ensures status { result.status ≡ status_of result.fault }
    ensures told { IsSome result.fault → told_by result ≡ nothing }
{
    match build(rt, alloc, words, files, gate) {
        Ok(index) => Ended::built(index.rows, index.blocks, index.claims),
        Err(fault) => Ended::refused(alloc, fault),
    }
}

// Builds an index and hands it back once it is delivered.
fn build<Rt: Threads + Sync, F: Files, G: Gate + Sync>(
    rt: &Rt,
    alloc: Global,
    words: &[String],
    files: &mut F,
    gate: &G,
) -> Result<BuiltIndex, Fault>
    ensures ok { IfOk result (λ index.
        Ends (texts_of words.now) (F.outside files.old) (F.outside files.new)
        (told_of_index index) None) }
    ensures err { IfErr result (λ fault.
        Ends (texts_of words.now) (F.outside files.old) (F.outside files.new)
        nothing (Some fault)) }
    ensures read_fault { IsAnswerToReadFaults (IsErrOf result Fault.ReadFault)
        (heap_name (texts_of words.now)) (F.outside files.old) (F.outside files.new) }
    ensures write_fault { IsAnswerToOutputFaults (IsErrOf result Fault.WriteFault)
        (index_name (texts_of words.now)) (F.outside files.old) (F.outside files.new) }
{
    let words = match read_words(words) {
        Ok(words) => words,
        Err(word) => return Err(Fault::Usage { word }),
    };
    let asked = read_statements(alloc, words.table_statement, words.index_statement)?;
    let heap = read_heap(alloc, files, words.heap)?;
    let index = build_index(rt, alloc, &heap, asked, words.manner(), gate)?;
    deliver(
        files,
        words.index,
        index.image.bytes(),
        index.report.as_bytes(),
    )?;
    Ok(index)
}
