//! How many records the entries of a GIN index have.

ghost use Rattle.std.specs.Prelude.{◌≡◌, ◌+◌, ◌<◌, ◌≤◌, MatchOption, length};
ghost use Rattle.shared_tape.specs.Runs.{record_count};
ghost use Rattle.run_merge.specs.Sorted.{all_records};
ghost use Rattle.build_leader.specs.Gin.{CountsRecords, most_records};

use shared_tape::{Tape, Tapes};

/// How many records a file has fewer than: the packer numbers no more.
const MOST_RECORDS: u32 = 1 << 30;

/// How many records tapes have, or None where one file can't have so many.
pub(crate) fn count_records(tapes: &Tapes) -> Option<u32>
    ensures { MatchOption result (most_records ≤ length (all_records tapes.now))
        (CountsRecords (all_records tapes.now)) }
{
    let mut count = 0;
    for tape in 0..tapes.len() {
        count = with_tape(count, tapes.get(tape))?;
    }
    Some(count)
}

// A count with a tape's records.
fn with_tape(before: u32, tape: &Tape) -> Option<u32>
    requires { before < MOST_RECORDS }
    ensures { MatchOption result (MOST_RECORDS ≤ before + record_count tape.now)
        (λ count. (count ≡ before + record_count tape.now) × (count < MOST_RECORDS)) }
{
    let mut count = before;
    for run in 0..tape.runs() {
        count = with_run(count, tape.run(run).len())?;
    }
    Some(count)
}

// A count with a run's records.
fn with_run(before: u32, records: usize) -> Option<u32>
    requires { before < MOST_RECORDS }
    ensures { MatchOption result (MOST_RECORDS ≤ before + records)
        (λ count. (count ≡ before + records) × (count < MOST_RECORDS)) }
{
    if records < (MOST_RECORDS - before) as usize {
        Some(before + records as u32)
    } else {
        None
    }
}
