ghost use Rattle.std.specs.Prelude.{◌≡◌, ◌<◌, ◌≤◌, [], IfOk, OnErr, length, slice_index_or, true};
ghost use Rattle.shared_tape.specs.Runs.{records_of};
ghost use Rattle.run_merge.specs.Heads.{no_run};
ghost use Rattle.run_merge.specs.Merging.{GivesInto, StandInOrder, order_of};
ghost use Rattle.run_merge.specs.Pass.{StandsAt, left_in};

use shared_tape::{Record, Tape};
use std::alloc::AllocError;
use std::marker::Model;

/// Runs whose records stand in order already, one run after the other, and the place of the next.
#[derive(Debug, Drop)]
pub(crate) struct OrderedRuns {
    runs: Tape,
    run: usize,
    at: usize,
}

impl Model for OrderedRuns {
    ghost use Rattle.std.specs.Prelude.{true};
    ghost use Rattle.run_merge.specs.Merging.{Merging, StandInOrder, order_of};
    ghost use Rattle.run_merge.specs.Pass.{StandsAt, left_in};

    ghost Value = { Merging };

    ghost view = { λ ordered. record {
      order = order_of ordered.runs;
      left = left_in ordered.runs ordered.run ordered.at;
      in_order = true;
    } };

    ghost invariant = { λ ordered. record {
      stand : StandInOrder ordered.runs;
      place : StandsAt ordered.runs ordered.run ordered.at;
    } };
}

impl OrderedRuns {
    /// The records of these runs, which takes no memory.
    pub fn new(runs: Tape) -> OrderedRuns
        requires { StandInOrder runs }
        ensures order { result.order ≡ order_of runs }
        ensures left { result.left ≡ records_of runs }
        ensures in_order { result.in_order ≡ true }
    {
        let (run, at) = skip_empty(&runs, 0, 0);
        OrderedRuns { runs, run, at }
    }

    /// Fills a record with the next one, as `Merged::next_into` does.
    pub fn next_into(&mut self, row: &mut Record) -> Result<bool, AllocError>
        ensures given { IfOk result (λ given. GivesInto self.old self.new given row.new) }
        ensures kept { OnErr result (self.new ≡ self.old) }
    {
        if self.run == self.runs.runs() {
            return Ok(false);
        }
        prove!(self.at < self.runs.run(self.run).len());
        self.runs.run(self.run).read_into(self.at, row)?;
        let (run, at) = skip_empty(&self.runs, self.run, self.at + 1);
        self.run = run;
        self.at = at;
        Ok(true)
    }
}

// The place of the first record from a place on, which may be past the end of a run.
fn skip_empty(runs: &Tape, mut run: usize, mut at: usize) -> (usize, usize)
    requires run { run ≤ length runs.now }
    requires at { run < length runs.now → at ≤ length (slice_index_or runs.now run no_run).records }
    requires none { run ≡ length runs.now → at ≡ 0 }
    ensures place { StandsAt runs.now result.0 result.1 }
    ensures left { left_in runs.now result.0 result.1 ≡ left_in runs.now run at }
{
    while run < runs.runs() && at == runs.run(run).len() {
        run += 1;
        at = 0;
    }
    (run, at)
}
