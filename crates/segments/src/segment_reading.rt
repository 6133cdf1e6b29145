ghost use Rattle.std.specs.Prelude.{◌≡◌, ◌+◌, ◌<◌, ◌≤◌, ◌^◌, length, IfOk};
ghost use Rattle.pg_files.specs.Outside.{OnlyReads};
ghost use Rattle.segments.specs.Reading.{CountsRead, IsSegmentRead, ReadsOn};
ghost use Rattle.segments.specs.Told.{OnFile, OnTold};

use crate::fault::ReadError;
use pg_files::Files;

/// Reads a segment behind the bytes that are there, through a buffer, to its end or until more came
/// than a segment has, and answers how many bytes that were.
pub(crate) fn read_segment<F: Files>(
    files: &mut F,
    name: &str,
    size: usize,
    buffer: &mut [u8],
    bytes: &mut Vec<u8>,
) -> Result<usize, ReadError>
    requires size { size ≤ 2 ^ 30 }
    requires buffer { 0 < length buffer.old }
    ensures bytes { IfOk result (λ count.
        OnTold (F.outside files.old).files (λ told. OnFile (told name.now)
        (IsSegmentRead size bytes.old.items count bytes.new.items))) }
    ensures buffer { length buffer.new ≡ length buffer.old }
    ensures faults { CountsRead name.now result (F.outside files.old) (F.outside files.new) }
    ensures only { OnlyReads (F.outside files.old) (F.outside files.new) }
{
    let mut count = 0;
    'reading: while count <= size {
        let more = read_more(files, name, count, buffer, bytes)?;
        if more == 0 {
            return Ok(count);
        }
        count += more;
    }
    Ok(count)
}

// Reads a file on from a place behind the bytes that are there, and answers how many came.
fn read_more<F: Files>(
    files: &mut F,
    name: &str,
    place: usize,
    buffer: &mut [u8],
    bytes: &mut Vec<u8>,
) -> Result<usize, ReadError>
    requires place { place ≤ 2 ^ 30 }
    requires buffer { 0 < length buffer.old }
    ensures few { IfOk result (λ count. count ≤ length buffer.old) }
    ensures bytes { IfOk result (λ count.
        OnTold (F.outside files.old).files (λ told. OnFile (told name.now)
        (ReadsOn place bytes.old.items count bytes.new.items))) }
    ensures buffer { length buffer.new ≡ length buffer.old }
    ensures faults { CountsRead name.now result (F.outside files.old) (F.outside files.new) }
    ensures only { OnlyReads (F.outside files.old) (F.outside files.new) }
{
    let count = files.read(name, place as u64, buffer)?;
    bytes.extend_from_slice(&buffer[..count])?;
    Ok(count)
}
