ghost use Rattle.std.specs.Prelude.{◌≡◌, [], ◌∷◌, ◌++◌, ◌<◌, ◌^◌, length, slice_get, IfErr, MatchOption, OnErr, OnOk, Some};
ghost use Rattle.shared_tape.specs.Runs.{record_count};

use crate::run::Run;
use pg_bytes::Items;
use std::alloc::Global;
use std::collections::VecDeque;
use std::marker::Model;

/// Runs that one owner holds, seen as the list of them. A tape changes threads by moves.
#[derive(Debug, Drop)]
pub struct Tape {
    runs: VecDeque<Run>,
}

impl Model for Tape {
    ghost use Rattle.std.specs.Prelude.{List};
    ghost use Rattle.shared_tape.specs.Runs.{RunView};

    ghost Value = { List RunView };

    ghost view = { λ tape. tape.runs.items };
}

/// Tapes, as each worker has one.
pub type Tapes = Items<Tape>;

impl Tape {
    /// The tape without runs, which takes no memory.
    pub fn new(alloc: Global) -> Tape
        ensures { result ≡ [] }
    {
        Tape {
            runs: VecDeque::new(alloc),
        }
    }

    /// The tape of these runs, which takes no memory.
    pub fn from_runs(runs: VecDeque<Run>) -> Tape
        ensures { result ≡ runs.items }
    {
        Tape { runs }
    }

    /// The allocator that the tape was made with.
    pub fn alloc(&self) -> Global {
        *self.runs.allocator()
    }

    /// Puts a run behind the others. On want of memory it hands the run back and changes nothing.
    pub fn append_run(&mut self, run: Run) -> Result<(), Run>
        ensures ok { OnOk result (self.new ≡ self.old ++ run ∷ []) }
        ensures err { OnErr result (self.new ≡ self.old) }
        ensures handed_back { IfErr result (λ back. back ≡ run) }
    {
        self.runs.push_back(run).map_err(|failed| failed.value)
    }

    /// Takes the first run. None comes exactly where none is left.
    pub fn take_run(&mut self) -> Option<Run>
        ensures { MatchOption result ((self.old ≡ []) × (self.new ≡ [])) (λ first.
            self.old ≡ first ∷ self.new) }
    {
        self.runs.pop_front()
    }

    /// How many runs there are.
    pub fn runs(&self) -> usize
        ensures { result ≡ length self.now }
    {
        self.runs.len()
    }

    /// The run at a place, counted from 0.
    pub fn run(&self, at: usize) -> &Run
        requires { at < length self.now }
        ensures { slice_get self.now at ≡ Some result.now }
    {
        &self.runs[at]
    }

    /// How many records all runs have together.
    pub fn records(&self) -> u64
        requires { record_count self.now < 2 ^ 64 }
        ensures { result ≡ record_count self.now }
    {
        self.runs.iter().map(|run| run.len() as u64).sum()
    }
}
