ghost use Rattle.std.specs.Prelude.{◌≡◌, ◌<◌, [], length, Some, IfOk, IfErr, OnOk};
ghost use Rattle.pg_files.specs.Outside.{OnlyReads, OnlyReadsAndAsks};
ghost use Rattle.segments.specs.Limits.{AreLimits, segment_bytes};
ghost use Rattle.segments.specs.Names.{segment_name};
ghost use Rattle.segments.specs.Reading.{CountsSegmentRead, CountsSeriesRead, HasSurplus, IsFaulty, IsNextRead, IsOverlong, NextFailed, OnFault, ReadFailed};
ghost use Rattle.segments.specs.Relation.{IsRelation, segment_of};
ghost use Rattle.segments.specs.Told.{OnTold};

use crate::fault::{SeriesCause, SeriesError, SeriesFault};
use crate::limits::Limits;
use crate::name::segment_name;
use crate::segment_reading::read_segment;
use pg_bytes::{PAGE, zero_bytes};
use pg_files::Files;
use std::alloc::Global;

// How many bytes a read asks for.
const BUFFER: usize = 65_536;

/// Reads a relation whole: its first segment, and each further one that follows a full one. A fault
/// of its segments is told where there is one, and then as much was read as shows it.
pub fn read_series<F: Files>(
    alloc: Global,
    files: &mut F,
    name: &str,
    limits: Limits,
) -> Result<Vec<u8>, SeriesError>
    requires limits { AreLimits limits }
    ensures bytes { IfOk result (λ bytes.
        OnTold (F.outside files.old).files (IsRelation limits name.now bytes.items)) }
    ensures fault { IfErr result (OnFault (λ fault.
        OnTold (F.outside files.old).files (IsFaulty limits name.now fault))) }
    ensures faults { CountsSeriesRead (segment_bytes limits) name.now result
        (F.outside files.old) (F.outside files.new) }
    ensures only { OnlyReadsAndAsks (F.outside files.old) (F.outside files.new) }
{
    let mut buffer = zero_bytes(alloc, BUFFER)?;
    let mut bytes = Vec::new(alloc);
    for number in 0..limits.segments {
        let goes_on = read_next(alloc, files, name, number, limits, &mut buffer, &mut bytes)?;
        if !goes_on {
            return Ok(bytes);
        }
    }
    read_beyond(alloc, files, name, limits, &mut buffer)?;
    Ok(bytes)
}

// Reads a segment behind the bytes that are there, and answers whether another one follows it.
fn read_next<F: Files>(
    alloc: Global,
    files: &mut F,
    name: &str,
    number: u32,
    limits: Limits,
    buffer: &mut [u8],
    bytes: &mut Vec<u8>,
) -> Result<bool, SeriesError>
    requires limits { AreLimits limits }
    requires permitted { number < limits.segments }
    requires buffer { 0 < length buffer.old }
    ensures bytes { IfOk result (λ more.
        OnTold (F.outside files.old).files
        (IsNextRead more (segment_bytes limits) name.now number bytes.old.items bytes.new.items)) }
    ensures fault { IfErr result (OnFault (λ fault.
        OnTold (F.outside files.old).files (IsOverlong limits name.now number fault))) }
    ensures buffer { length buffer.new ≡ length buffer.old }
    ensures faults { CountsSegmentRead
        (NextFailed (segment_bytes limits) name.now number
        (F.outside files.old) (F.outside files.new))
        name.now result (F.outside files.old) (F.outside files.new) }
    ensures only { OnlyReadsAndAsks (F.outside files.old) (F.outside files.new) }
{
    let size = limits.segment as usize * PAGE;
    let segment = segment_name(alloc, name, number)?;
    let count = read_segment(files, segment.as_str(), size, buffer, bytes)?;
    if count > size {
        return Err(SeriesError::Fault(SeriesFault {
            block: (number + 1) * limits.segment,
            cause: SeriesCause::Overlong,
        }));
    }
    if count < size {
        return Ok(false);
    }
    let next = segment_name(alloc, name, number + 1)?;
    Ok(files.there(next.as_str())?)
}

// Looks whether the segment behind as many as there may be has a byte, which is a fault.
fn read_beyond<F: Files>(
    alloc: Global,
    files: &mut F,
    name: &str,
    limits: Limits,
    buffer: &mut [u8],
) -> Result<(), SeriesError>
    requires limits { AreLimits limits }
    requires buffer { 0 < length buffer.old }
    ensures empty { OnOk result (OnTold (F.outside files.old).files (λ told.
        segment_of told name.now limits.segments ≡ Some [])) }
    ensures fault { IfErr result (OnFault (λ fault.
        OnTold (F.outside files.old).files (HasSurplus limits name.now fault))) }
    ensures faults { CountsSegmentRead
        (ReadFailed (segment_name name.now limits.segments)
        (F.outside files.old) (F.outside files.new))
        name.now result (F.outside files.old) (F.outside files.new) }
    ensures only { OnlyReads (F.outside files.old) (F.outside files.new) }
{
    let segment = segment_name(alloc, name, limits.segments)?;
    if files.read(segment.as_str(), 0, buffer)? > 0 {
        return Err(SeriesError::Fault(SeriesFault {
            block: limits.segments * limits.segment,
            cause: SeriesCause::Surplus,
        }));
    }
    Ok(())
}
