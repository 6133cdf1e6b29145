ghost use Rattle.std.specs.Prelude.{◌≡◌, ◌<◌, ◌≤◌, [], ◌↔◌, IsTrue, length, slice_index_or};
ghost use Rattle.std.specs.List.{slice_range};
ghost use Rattle.shared_tape.specs.Runs.{IsRun};

use shared_tape::{Run, Tapes};

/// Where a merge stands in a run: at a record, with the records up to an end left to give. It keeps
/// the first 16 order bytes of that record as one number, so that most comparisons touch no record.
#[derive(Clone, Copy, Debug)]
pub(crate) struct Head {
    pub start: u128,
    pub tape: usize,
    pub run: usize,
    pub at: usize,
    pub end: usize,
}

impl Head {
    ghost use Rattle.run_merge.specs.Heads.{IsHead, bytes_at, is_behind, left_at, run_at, run_of};

    /// The head of the records of a run from a place up to an end.
    pub fn new(tapes: &Tapes, tape: usize, run: usize, at: usize, end: usize) -> Head
        requires tape { tape < length tapes.now }
        requires run { run < length (slice_index_or tapes.now tape []) }
        requires sound { IsRun (run_at tapes.now tape run) }
        requires some { at < end }
        requires within { end ≤ length (run_at tapes.now tape run).records }
        ensures head { IsHead tapes.now result }
        ensures left { left_at tapes.now result
            ≡ slice_range (run_at tapes.now tape run).records at end }
    {
        Head {
            start: tapes.get(tape).run(run).head_at(at),
            tape,
            run,
            at,
            end,
        }
    }

    /// The run.
    pub fn run<'a>(&self, tapes: &'a Tapes) -> &'a Run
        requires { IsHead tapes.now self.now }
        ensures { result.now ≡ run_of tapes.now self.now }
    {
        tapes.get(self.tape).run(self.run)
    }

    /// The order bytes of the record.
    pub fn order_bytes<'a>(&self, tapes: &'a Tapes) -> &'a [u8]
        requires { IsHead tapes.now self.now }
        ensures { result.now ≡ bytes_at tapes.now self.now }
    {
        self.run(tapes).order_at(self.at)
    }

    /// Whether another head has a record below this one's.
    pub fn is_behind(&self, other: &Head, tapes: &Tapes) -> bool
        requires head { IsHead tapes.now self.now }
        requires other { IsHead tapes.now other.now }
        ensures { result ≡ is_behind tapes.now self.now other.now }
    {
        if other.start == self.start {
            self.is_behind_by_bytes(other, tapes)
        } else {
            other.start < self.start
        }
    }

    // The same where the first bytes are equal, which is seldom, so that the heap's steps stay
    // small.
    #[cold]
    #[inline(never)]
    fn is_behind_by_bytes(&self, other: &Head, tapes: &Tapes) -> bool
        requires head { IsHead tapes.now self.now }
        requires other { IsHead tapes.now other.now }
        ensures { result ≡ is_behind tapes.now self.now other.now }
    {
        other
            .order_bytes(tapes)
            .cmp(self.order_bytes(tapes))
            .is_lt()
    }
}
