ghost use Rattle.std.specs.Prelude.{IsErr, OnOk, OnErr};
ghost use Rattle.pg_files.specs.Faults.{IsAnswerToOutputFaults};
ghost use Rattle.pg_files.specs.Outside.{OnlyWritesAndSays};
ghost use Rattle.pg_index.specs.IndexFile.{IsCutShort, IsDelivered, delivery};

use crate::index_file::write_file;
use pg_files::{Failed, Files};

/// Writes an index file and says its report.
pub fn deliver<F: Files>(
    files: &mut F,
    name: &str,
    image: &[u8],
    report: &[u8],
) -> Result<(), Failed>
    ensures done { OnOk result (IsDelivered (delivery name.now image.now report.now)
        (F.outside files.old) (F.outside files.new)) }
    ensures cut { OnErr result (IsCutShort (delivery name.now image.now report.now)
        (F.outside files.old) (F.outside files.new)) }
    ensures faults { IsAnswerToOutputFaults (IsErr result) name.now
        (F.outside files.old) (F.outside files.new) }
    ensures only { OnlyWritesAndSays name.now (F.outside files.old) (F.outside files.new) }
{
    write_file(files, name, image)?;
    files.say(report)?;
    Ok(())
}
