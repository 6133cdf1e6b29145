//! A BRIN index of what the workers of a scan know of ranges (`_brin_parallel_merge` of `brin.c`).

ghost use Rattle.std.specs.Prelude.{◌≡◌, ◌+◌, ◌-◌, ◌*◌, ◌/◌, ◌<◌, ◌≤◌, ◌^◌, ℕ, [], ◌∷◌, ◌++◌, List, IfErr, IfOk, None, OnOk, length};
ghost use Rattle.std.specs.List.{flat_map};
ghost use Rattle.brin_summary.specs.Answer.{IsTold, tuple_size, wide_range};
ghost use Rattle.brin_summary.specs.File.{brin_file};
ghost use Rattle.build_leader.specs.Blocks.{most_blocks};
ghost use Rattle.build_leader.specs.Ranges.{range_count, told_of, told_ranges};
ghost use Rattle.build_leader.specs.Tally.{AreOfColumns};
ghost use Rattle.brin_summary.specs.declared.ranges.SummedRange.{SummedRange};
ghost use Rattle.build_leader.specs.Uniting.{AreTold, HaveColumns, told_each};

use brin_summary::{BrinFault, RangeParts, Summary, SummedRange, SummedRanges, pack};
use opclass::{IndexSpec, Kinds};
use pg_bytes::IndexImage;
use std::alloc::{AllocError, Global};

/// The BRIN file of a heap of so many blocks, of whose ranges workers know these parts. Errors are
/// those of `brin_summary::pack`.
pub(crate) fn pack_ranges(
    alloc: Global,
    spec: &IndexSpec,
    kinds: &Kinds,
    blocks: u32,
    parts: RangeParts,
) -> Result<IndexImage, BrinFault>
    requires some_pages { 1 ≤ spec.now.pages_per_range }
    requires few_pages { spec.now.pages_per_range ≤ 131072 }
    requires kinds { length kinds.now ≡ length spec.now.keys }
    requires few_kinds { length kinds.now ≤ 32 }
    requires blocks { blocks ≤ most_blocks }
    requires columns { AreOfColumns (length spec.now.keys) (flat_map (λ part. part) parts) }
    requires sizes { (range : ℕ) → tuple_size kinds.now
        (told_of (length spec.now.keys) range (flat_map (λ part. part) parts)) < 2 ^ 63 }
    ensures file { IfOk result (λ image. image ≡ brin_file kinds.now spec.now.pages_per_range
        (told_ranges spec.now blocks (flat_map (λ part. part) parts))) }
    ensures fit { OnOk result (wide_range kinds.now
        (told_ranges spec.now blocks (flat_map (λ part. part) parts)) ≡ None) }
    ensures wide { IfErr result (IsTold kinds.now
        (told_ranges spec.now blocks (flat_map (λ part. part) parts))) }
{
    let columns = spec.keys.len() as u16;
    let count = count_ranges(spec, blocks);
    let summaries = united(alloc, columns, count, parts)?;
    pack(alloc, kinds, spec.pages_per_range, &summaries)
}

/// How many ranges so many blocks have.
pub(crate) fn count_ranges(spec: &IndexSpec, blocks: u32) -> u32
    requires some_pages { 1 ≤ spec.now.pages_per_range }
    requires few_pages { spec.now.pages_per_range ≤ 131072 }
    requires blocks { blocks ≤ most_blocks }
    ensures { result ≡ range_count spec.now.pages_per_range blocks }
{
    (blocks + (spec.pages_per_range - 1)) / spec.pages_per_range
}

// What parts tell of each of so many ranges.
fn united(
    alloc: Global,
    columns: u16,
    count: u32,
    parts: RangeParts,
) -> Result<Vec<Summary>, AllocError>
    requires { AreOfColumns columns (flat_map (λ part. part) parts) }
    ensures { IfOk result (λ known. known.items
        ≡ told_each columns count (flat_map (λ part. part) parts)) }
{
    let mut known = without_rows(alloc, columns, count)?;
    for part in parts.into_vec() {
        unite_part(&mut known, part);
    }
    Ok(known)
}

// The summaries of so many ranges without rows.
fn without_rows(alloc: Global, columns: u16, count: u32) -> Result<Vec<Summary>, AllocError>
    ensures { IfOk result (λ summaries. summaries.items ≡ told_each columns count []) }
{
    let mut summaries = Vec::with_capacity(alloc, count as usize)?;
    for _range in 0..count {
        summaries.push(Summary::empty(alloc, columns)?)?;
    }
    Ok(summaries)
}

// Unites what a part tells of ranges with what is known of all.
fn unite_part(known: &mut [Summary], part: SummedRanges)
    requires alike { (columns : ℕ) × HaveColumns columns known.old × AreOfColumns columns part }
    ensures alike { (columns : ℕ) → HaveColumns columns known.old → AreOfColumns columns part
        → HaveColumns columns known.new }
    ensures told { (columns : ℕ) (ranges : List SummedRange) → AreTold columns ranges known.old
        → AreTold columns (ranges ++ part) known.new }
{
    for summed in part.into_vec() {
        unite(known, summed);
    }
}

// Unites the summary of a range with what is known of it. A range beyond the heap has no place.
fn unite(known: &mut [Summary], summed: SummedRange)
    requires alike { HaveColumns (length summed.summary.columns) known.old }
    ensures alike { HaveColumns (length summed.summary.columns) known.new }
    ensures told { (columns : ℕ) (ranges : List SummedRange) → AreTold columns ranges known.old
        → AreTold columns (ranges ++ summed ∷ []) known.new }
{
    let place = summed.range as usize;
    if place < known.len() {
        known[place].union(summed.summary);
    }
}
