ghost use Rattle.std.specs.Prelude.{◌≡◌, ◌+◌, ◌*◌, ◌/◌, ◌<◌, ◌≤◌, ◌^◌, length, OnOk, OnErr};
ghost use Rattle.segments.specs.Limits.{AreLimits, segment_bytes};
ghost use Rattle.segments.specs.Writing.{CountsSeriesWrite, HoldsFrontOfRelation, HoldsRelation, OnlyWritesSeries, part_of, segments_for};

use crate::limits::Limits;
use crate::names::SegmentNames;
use crate::segment_writing::write_segment;
use pg_bytes::PAGE;
use pg_files::{Failed, Files};

/// How many segments so many bytes are written in: a full last one is followed by an empty one, as
/// `mdextend` of `md.c` leaves them, so that a segment that stood behind it before isn't read.
pub fn segment_count(size: usize, limits: Limits) -> u32
    requires limits { AreLimits limits }
    requires few { size < 2 ^ 44 }
    ensures { result ≡ size / segment_bytes limits + 1 }
{
    (size / (limits.segment as usize * PAGE)) as u32 + 1
}

/// Writes a relation in segments, page by page. Each segment is made just before its first bytes
/// are written. After a failure the segments before one have their bytes, and that one is as before
/// or has a front of them.
pub fn write_series<F: Files>(
    files: &mut F,
    names: &SegmentNames<'_>,
    image: &[u8],
    limits: Limits,
) -> Result<(), Failed>
    requires limits { AreLimits limits }
    requires names { names.now.count ≡ segments_for (segment_bytes limits) image.now }
    ensures ok { OnOk result (HoldsRelation (segment_bytes limits) names.now.name image.now
        (F.outside files.old) (F.outside files.new)) }
    ensures err { OnErr result
        (HoldsFrontOfRelation (segment_bytes limits) names.now.name image.now
        (F.outside files.old) (F.outside files.new)) }
    ensures faults { CountsSeriesWrite (segment_bytes limits) names.now.name image.now result
        (F.outside files.old) (F.outside files.new) }
    ensures only { OnlyWritesSeries names.now.name (F.outside files.old) (F.outside files.new) }
{
    let size = limits.segment as usize * PAGE;
    for number in 0..names.len() {
        write_segment(files, names.get(number), part(image, size, number as usize))?;
    }
    Ok(())
}

// What a segment of this size has of the bytes.
fn part(image: &[u8], size: usize, number: usize) -> &[u8]
    requires small { size ≤ 2 ^ 30 }
    requires inside { number * size ≤ length image.now }
    ensures { result.now ≡ part_of size image.now number }
{
    let rest = &image[number * size..];
    &rest[..size.min(rest.len())]
}
