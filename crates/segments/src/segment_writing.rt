ghost use Rattle.std.specs.Prelude.{◌≡◌, ◌+◌, ◌<◌, ◌≤◌, length, IfOk, OnOk, OnErr};
ghost use Rattle.pg_files.specs.Faults.{CountsWriteFailure};
ghost use Rattle.pg_files.specs.Files.{ToldSets};
ghost use Rattle.pg_files.specs.Outside.{OnlyWrites};
ghost use Rattle.segments.specs.Growing.{Grows, MayGrow, page_end};
ghost use Rattle.segments.specs.Writing.{HasFront};

use pg_bytes::PAGE;
use pg_files::{Failed, Files};

/// Makes a file of these bytes, page by page. After a failure the file is as before, or has a front
/// of them.
pub(crate) fn write_segment<F: Files>(files: &mut F, name: &str, part: &[u8]) -> Result<(), Failed>
    ensures ok { OnOk result
        (ToldSets name.now (λ _. part.now)
        (F.outside files.old).files (F.outside files.new).files) }
    ensures err { OnErr result
        (HasFront name.now part.now (F.outside files.old).files (F.outside files.new).files) }
    ensures faults { CountsWriteFailure name.now result
        (F.outside files.old) (F.outside files.new) }
    ensures only { OnlyWrites name.now (F.outside files.old) (F.outside files.new) }
{
    files.create(name)?;
    let mut written = 0;
    'writing: while written < part.len() {
        written += append_page(files, name, part, written)?;
    }
    Ok(())
}

// Offers the rest of the page at a place, and answers how many bytes of it the file has more.
fn append_page<F: Files>(
    files: &mut F,
    name: &str,
    bytes: &[u8],
    place: usize,
) -> Result<usize, Failed>
    requires { place < length bytes.now }
    ensures some { IfOk result (λ count. 0 < count) }
    ensures page { IfOk result (λ count. place + count ≤ page_end bytes.now place) }
    ensures ok { IfOk result (λ count.
        Grows name.now bytes.now place count (F.outside files.old) (F.outside files.new)) }
    ensures err { OnErr result
        (MayGrow name.now bytes.now place (F.outside files.old) (F.outside files.new)) }
    ensures faults { CountsWriteFailure name.now result
        (F.outside files.old) (F.outside files.new) }
    ensures only { OnlyWrites name.now (F.outside files.old) (F.outside files.new) }
{
    let end = bytes.len().min((place / PAGE + 1) * PAGE);
    files.append(name, &bytes[place..end])
}
