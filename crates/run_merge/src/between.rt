ghost use Rattle.std.specs.Prelude.{◌≡◌, ◌≤◌, Some, filter, length};
ghost use Rattle.std.specs.List.{slice_range};
ghost use Rattle.std.specs.Option.{option_copied};
ghost use Rattle.shared_tape.specs.Runs.{IsRun};
ghost use Rattle.run_merge.specs.Cutting.{is_between};
ghost use Rattle.run_merge.specs.Pass.{BeginsAt, EndsAt};

use shared_tape::Run;

/// The cuts between which a part of the order lies: it begins at the first, if there is one, and
/// ends before the second.
#[derive(Clone, Copy, Debug)]
pub(crate) struct Between<'a> {
    pub low: Option<&'a [u8]>,
    pub high: Option<&'a [u8]>,
}

/// The places from which on and up to which a run's records lie between two cuts.
pub(crate) fn places_in(run: &Run, between: Between) -> (usize, usize)
    ensures sound { IsRun run.now }
    ensures within { result.1 ≤ length run.now.records }
    ensures records { slice_range run.now.records result.0 result.1
        ≡ filter (is_between run.now.order (option_copied between.entry.low)
        (option_copied between.entry.high)) run.now.records }
{
    (begin_of(run, between.low), end_of(run, between.high))
}

fn begin_of(run: &Run, low: Option<&[u8]>) -> usize
    ensures { BeginsAt (option_copied low.entry) run.now result }
{
    match low {
        Some(cut) => first_from(run, cut),
        None => 0,
    }
}

fn end_of(run: &Run, high: Option<&[u8]>) -> usize
    ensures sound { IsRun run.now }
    ensures place { EndsAt (option_copied high.entry) run.now result }
{
    match high {
        Some(cut) => first_from(run, cut),
        None => run.len(),
    }
}

// The place of the first record that isn't below a cut, by halving.
fn first_from(run: &Run, cut: &[u8]) -> usize
    ensures sound { IsRun run.now }
    ensures place { EndsAt (Some cut.now) run.now result }
{
    let mut low = 0;
    let mut high = run.len();
    while low < high {
        let middle = low + (high - low) / 2;
        if run.order_at(middle).cmp(cut).is_lt() {
            low = middle + 1;
        } else {
            high = middle;
        }
    }
    low
}
