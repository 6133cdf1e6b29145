ghost use Rattle.std.specs.Prelude.{◌≡◌, ◌*◌, ◌<◌, ◌≤◌, ◌^◌, All, length, map, IfErr, IfOk, None, OnOk};
ghost use Rattle.brin_summary.specs.Answer.{IsTold, tuple_size, wide_range};
ghost use Rattle.brin_summary.specs.File.{brin_file};

use crate::meta::meta_page;
use crate::regular::put_tuples;
use crate::revmap::{put_revmap, revmap_pages, tuple_pointers};
use crate::summary::Summary;
use crate::tuple::{BoundKinds, TUPLE_MOST};
use opclass::Kinds;
use pg_bytes::IndexImage;
use std::alloc::{AllocError, AllocFailed, Global};

/// Why ranges aren't packed: a range's tuple is larger than a page takes, which is told with its
/// size in bytes, ranges counted from 0, or no memory was left.
#[derive(Clone, Copy, Debug, PartialEq, Eq)]
pub enum BrinFault {
    RangeWide { range: u32, size: u64 },
    Memory,
}

impl From<AllocError> for BrinFault {
    ghost use Rattle.std.specs.Prelude.{◌≡◌};
    ghost use Rattle.brin_summary.specs.declared.file.BrinFault.TheVariants.{Memory};

    ghost from_gives = { λ _ fault. fault ≡ Memory };

    fn from(_: AllocError) -> BrinFault {
        BrinFault::Memory
    }
}

impl<T: Drop> From<AllocFailed<T>> for BrinFault {
    ghost use Rattle.std.specs.Prelude.{◌≡◌};
    ghost use Rattle.brin_summary.specs.declared.file.BrinFault.TheVariants.{Memory};

    ghost from_gives = { λ _ fault. fault ≡ Memory };

    fn from(_: AllocFailed<T>) -> BrinFault {
        BrinFault::Memory
    }
}

/// The file of the index over columns of these types, whose ranges of so many blocks each have
/// these summaries (`brinbuild` of `brin.c`). The least range is told whose tuple exceeds 8,152
/// bytes, exactly where there is one.
pub fn pack(
    alloc: Global,
    kinds: &Kinds,
    pages_per_range: u32,
    ranges: &[Summary],
) -> Result<IndexImage, BrinFault>
    requires kinds { length kinds.now ≤ 32 }
    requires columns { All (λ range. length range.columns ≡ length kinds.now) ranges.now }
    requires some_pages { 1 ≤ pages_per_range }
    requires blocks { length ranges.now * pages_per_range < 2 ^ 24 }
    requires sizes { All (λ range. tuple_size kinds.now range < 2 ^ 63) ranges.now }
    ensures file { IfOk result (λ image. image ≡ brin_file kinds.now pages_per_range ranges.now) }
    ensures fit { OnOk result (wide_range kinds.now ranges.now ≡ None) }
    ensures wide { IfErr result (IsTold kinds.now ranges.now) }
{
    let kinds = BoundKinds::of(alloc, kinds.as_slice())?;
    let sizes = tuple_sizes(alloc, &kinds, ranges)?;
    let image = file_of(alloc, &kinds, pages_per_range, ranges, &sizes)?;
    Ok(image)
}

// The file of ranges whose tuples have these sizes. An error means that no memory was left.
fn file_of(
    alloc: Global,
    kinds: &BoundKinds,
    pages_per_range: u32,
    ranges: &[Summary],
    sizes: &[u16],
) -> Result<IndexImage, AllocError>
    requires columns { All (λ range. length range.columns ≤ 32) ranges.now }
    requires sizes { sizes.now ≡ map (tuple_size kinds.now) ranges.now }
    requires fit { All (λ size. size ≤ 8152) sizes.now }
    requires some_pages { 1 ≤ pages_per_range }
    requires blocks { length ranges.now * pages_per_range < 2 ^ 24 }
    ensures { IfOk result (λ image. image ≡ brin_file kinds.now pages_per_range ranges.now) }
{
    let revmap = revmap_pages(ranges.len() as u32);
    let pointers = tuple_pointers(alloc, 1 + revmap, sizes)?;
    let mut image = IndexImage::new(alloc);
    image.append(&meta_page(alloc, pages_per_range, revmap)?)?;
    put_revmap(alloc, &mut image, revmap, &pointers)?;
    put_tuples(alloc, &mut image, kinds, pages_per_range, ranges, sizes)?;
    Ok(image)
}

// The sizes of the ranges' tuples, or the least range whose tuple no page takes.
fn tuple_sizes(alloc: Global, kinds: &BoundKinds, ranges: &[Summary]) -> Result<Vec<u16>, BrinFault>
    requires columns { All (λ range. length range.columns ≤ 32) ranges.now }
    requires count { length ranges.now < 2 ^ 24 }
    requires sizes { All (λ range. tuple_size kinds.now range < 2 ^ 63) ranges.now }
    ensures sizes { IfOk result (λ sizes. sizes.items ≡ map (tuple_size kinds.now) ranges.now) }
    ensures small { IfOk result (λ sizes. All (λ size. size ≤ 8152) sizes.items) }
    ensures fit { OnOk result (wide_range kinds.now ranges.now ≡ None) }
    ensures wide { IfErr result (IsTold kinds.now ranges.now) }
{
    let mut sizes = Vec::with_capacity(alloc, ranges.len())?;
    for (range, summary) in ranges.iter().enumerate() {
        let size = kinds.tuple_size(summary);
        if size > TUPLE_MOST {
            return Err(BrinFault::RangeWide {
                range: range as u32,
                size,
            });
        }
        sizes.push(size as u16)?;
    }
    Ok(sizes)
}
