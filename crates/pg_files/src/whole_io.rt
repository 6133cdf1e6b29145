ghost use Rattle.std.specs.Prelude.{◌<◌, ◌≤◌, length, take, unwrap_or, IfNone, IfOk, OnOk};
ghost use Rattle.std.specs.Io.KnownBytes.{Appends, Consumes, IsAtEnd};

use std::io;
use std::io::{ErrorKind, Read, Write};

// Reads until the buffer is full or the reader's end, and answers how much came.
pub(crate) fn fill<R: Read>(reader: &mut R, into: &mut [u8]) -> io::Result<usize>
    ensures within { IfOk result (λ count. count ≤ length into.old) }
    ensures bytes { IfOk result (λ count.
        Consumes (R.remaining reader.old) (R.remaining reader.new) (take count into.new)) }
    ensures end { IfOk result (λ count.
        count < length into.old → IsAtEnd (R.remaining reader.new)) }
{
    let mut count = 0;
    for _ in 0..u64::MAX {
        if count == into.len() {
            return Ok(count);
        }
        let Some(more) = read_some(reader, &mut into[count..])? else {
            return Ok(count);
        };
        count += more;
    }
    Err(io::Error::from(ErrorKind::Interrupted))
}

// One read: how much came, none where it was interrupted, or the reader's end.
fn read_some<R: Read>(reader: &mut R, into: &mut [u8]) -> io::Result<Option<usize>>
    requires { 0 < length into.old }
    ensures within { IfOk result (λ read. unwrap_or read 0 ≤ length into.old) }
    ensures bytes { IfOk result (λ read.
        Consumes (R.remaining reader.old) (R.remaining reader.new)
        (take (unwrap_or read 0) into.new)) }
    ensures end { IfOk result (λ read. IfNone read (IsAtEnd (R.remaining reader.new))) }
{
    match reader.read(into) {
        Ok(0) => Ok(None),
        Ok(more) => Ok(Some(more)),
        Err(error) if error.kind() == ErrorKind::Interrupted => Ok(Some(0)),
        Err(error) => Err(error),
    }
}

// Writes until all is written, and then flushes.
pub(crate) fn write_whole<W: Write>(writer: &mut W, bytes: &[u8]) -> io::Result<()>
    ensures { OnOk result (Appends (W.contents writer.old) (W.contents writer.new) bytes.now) }
{
    let mut rest = bytes;
    for _ in 0..u64::MAX {
        if rest.is_empty() {
            return writer.flush();
        }
        let taken = write_some(writer, rest)?;
        rest = &rest[taken..];
    }
    Err(io::Error::from(ErrorKind::Interrupted))
}

// One write: how much was taken, none where it was interrupted. To take nothing else is a failure.
fn write_some<W: Write>(writer: &mut W, bytes: &[u8]) -> io::Result<usize>
    ensures within { IfOk result (λ taken. taken ≤ length bytes.now) }
    ensures bytes { IfOk result (λ taken.
        Appends (W.contents writer.old) (W.contents writer.new) (take taken bytes.now)) }
{
    match writer.write(bytes) {
        Ok(0) => Err(io::Error::from(ErrorKind::WriteZero)),
        Ok(taken) => Ok(taken),
        Err(error) if error.kind() == ErrorKind::Interrupted => Ok(0),
        Err(error) => Err(error),
    }
}
