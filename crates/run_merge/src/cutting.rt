ghost use Rattle.std.specs.Prelude.{◌≡◌, ◌+◌, ◌<◌, ◌≤◌, ◌++◌, IfOk, OnOk, Some, length, slice_get};
ghost use Rattle.std.specs.List.Sorted.{IsSorted};
ghost use Rattle.opclass.specs.Order.{bytes_cmp};
ghost use Rattle.shared_tape.specs.Runs.{order_list};
ghost use Rattle.run_merge.specs.Cutting.{AreAtShares, AreCuts, all_samples, cut_at, key_list, samples_of, tape_samples};
ghost use Rattle.run_merge.specs.Pass.{bytes_of, bytes_sampled};
ghost use Rattle.run_merge.specs.Sorted.{AllHaveOrder};

use crate::cuts::Cuts;
use opclass::SortSpec;
use pg_bytes::{Bytes, Items};
use shared_tape::{Run, Tape, Tapes};
use std::alloc::{AllocError, Global};

/// Of how many records of a run one is a sample.
const STRIDE: usize = 64;

/// How many order bytes a row pointer has. They stand last.
const POINTER: usize = 6;

/// What a sample has of its record.
#[derive(Clone, Copy)]
pub(crate) enum Sampled {
    /// The order bytes.
    OrderBytes,
    /// The normalised key, which is the order bytes without the row pointer.
    Key,
}

/// Cuts the order into so many parts, at equal shares of the samples: of every run the order bytes
/// of the records at the places 0, 64, 128 and so on. A cut is the order bytes of a record, with
/// its row pointer, so records with equal keys may be parted. Without samples every cut is the
/// empty list. How many records a part then has isn't promised. An error means that no memory was
/// left.
pub fn cut_points(
    alloc: Global,
    tapes: &Tapes,
    parts: u32,
    order: &SortSpec,
) -> Result<Cuts, AllocError>
    requires some { 1 ≤ parts }
    requires few { parts ≤ 32 }
    requires order { AllHaveOrder order.now tapes.now }
    ensures { IfOk result (AreCuts order_list tapes.now parts) }
{
    cut_at_samples(alloc, tapes, parts, Sampled::OrderBytes)
}

/// Cuts the order as `cut_points` does, at the normalised keys of the same records. Such a cut has
/// no row pointer, so that no records with equal keys are parted.
pub fn key_cuts(
    alloc: Global,
    tapes: &Tapes,
    parts: u32,
    order: &SortSpec,
) -> Result<Cuts, AllocError>
    requires some { 1 ≤ parts }
    requires few { parts ≤ 32 }
    requires order { AllHaveOrder order.now tapes.now }
    ensures { IfOk result (AreCuts key_list tapes.now parts) }
{
    cut_at_samples(alloc, tapes, parts, Sampled::Key)
}

fn cut_at_samples(
    alloc: Global,
    tapes: &Tapes,
    parts: u32,
    sampled: Sampled,
) -> Result<Cuts, AllocError>
    requires some { 1 ≤ parts }
    requires few { parts ≤ 32 }
    ensures { IfOk result (AreCuts (bytes_sampled sampled) tapes.now parts) }
{
    let mut samples = take_samples(alloc, tapes, sampled)?;
    samples.sort_unstable();
    choose_cuts(alloc, &samples, parts)
}

fn take_samples(alloc: Global, tapes: &Tapes, sampled: Sampled) -> Result<Vec<&[u8]>, AllocError>
    ensures { IfOk result (λ samples.
        bytes_of samples.items ≡ all_samples (bytes_sampled sampled) tapes.now) }
{
    let mut samples = Vec::new(alloc);
    for tape in 0..tapes.len() {
        sample_tape(tapes.get(tape), sampled, &mut samples)?;
    }
    Ok(samples)
}

fn sample_tape<'a>(
    tape: &'a Tape,
    sampled: Sampled,
    samples: &mut Vec<&'a [u8]>,
) -> Result<(), AllocError>
    ensures { OnOk result (bytes_of samples.new.items
        ≡ bytes_of samples.old.items ++ tape_samples (bytes_sampled sampled) tape.now) }
{
    for run in 0..tape.runs() {
        sample_run(tape.run(run), sampled, samples)?;
    }
    Ok(())
}

fn sample_run<'a>(
    run: &'a Run,
    sampled: Sampled,
    samples: &mut Vec<&'a [u8]>,
) -> Result<(), AllocError>
    ensures { OnOk result (bytes_of samples.new.items
        ≡ bytes_of samples.old.items ++ samples_of (bytes_sampled sampled) run.now) }
{
    for number in 0..run.len().div_ceil(STRIDE) {
        samples.push(sample_at(run, number * STRIDE, sampled))?;
    }
    Ok(())
}

// What a sample has of the record at a place.
fn sample_at(run: &Run, at: usize, sampled: Sampled) -> &[u8]
    requires { at < length run.now.records }
    ensures { slice_get (bytes_sampled sampled run.now) at ≡ Some result.now }
{
    match sampled {
        Sampled::OrderBytes => run.order_at(at),
        Sampled::Key => key_at(run, at),
    }
}

// The normalised key of the record at a place.
fn key_at(run: &Run, at: usize) -> &[u8]
    requires { at < length run.now.records }
    ensures { slice_get (key_list run.now) at ≡ Some result.now }
{
    let order_bytes = run.order_at(at);
    &order_bytes[..order_bytes.len() - POINTER]
}

// The cuts at equal shares of samples in order.
fn choose_cuts(alloc: Global, samples: &[&[u8]], parts: u32) -> Result<Cuts, AllocError>
    requires some { 1 ≤ parts }
    requires few { parts ≤ 32 }
    requires ascending { IsSorted bytes_cmp (bytes_of samples.now) }
    ensures { IfOk result (AreAtShares (bytes_of samples.now) parts) }
{
    let mut cuts = Items::new(alloc);
    for number in 1..parts {
        if cuts
            .push(choose_cut(alloc, samples, parts, number)?)
            .is_err()
        {
            return Err(AllocError);
        }
    }
    Ok(Cuts::of(cuts))
}

// The cut with a number, counted from 1.
fn choose_cut(
    alloc: Global,
    samples: &[&[u8]],
    parts: u32,
    number: u32,
) -> Result<Bytes, AllocError>
    requires { number < parts }
    ensures { IfOk result (λ cut. cut ≡ cut_at (bytes_of samples.now) parts number) }
{
    let share = u128::from(number) * samples.len() as u128 / u128::from(parts);
    let bytes = match samples.get(share as usize) {
        Some(sample) => sample.to_vec(alloc)?,
        None => Vec::new(alloc),
    };
    Ok(Items::from_vec(bytes))
}
