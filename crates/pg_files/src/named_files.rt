ghost use Rattle.std.specs.Prelude.{◌≡◌, ◌++◌, position, OnOk, OnErr};
ghost use Rattle.pg_files.specs.Files.{SetsFile, content};
ghost use Rattle.pg_files.specs.NamedFiles.{file_map, is_named};
ghost use Rattle.pg_files.specs.Outside.{SameOthers};

use std::alloc::{AllocError, Global};

// A file and its name. Among several of one name the first counts; none is ever added.
#[derive(Debug, Drop)]
pub(crate) struct NamedFile {
    pub(crate) name: String,
    pub(crate) bytes: Vec<u8>,
}

// Where the file of this name stands.
pub(crate) fn place_of(files: &[NamedFile], name: &str) -> Option<usize>
    ensures { result ≡ position (is_named name.now) files.now }
{
    files.iter().position(|file| file.name.as_str() == name)
}

// Sets the bytes of a file, whether it was there or not.
pub(crate) fn set_file(
    alloc: Global,
    files: &mut Vec<NamedFile>,
    name: &str,
    bytes: Vec<u8>,
) -> Result<(), AllocError>
    ensures ok { OnOk result
        (SetsFile name.now bytes.items (file_map files.old.items) (file_map files.new.items)) }
    ensures err { OnErr result (files.new.items ≡ files.old.items) }
    ensures others { SameOthers name.now (file_map files.old.items) (file_map files.new.items) }
{
    match place_of(files, name) {
        Some(place) => {
            files[place].bytes = bytes;
            Ok(())
        }
        None => add_file(alloc, files, name, bytes),
    }
}

// Adds a file that isn't there yet.
fn add_file(
    alloc: Global,
    files: &mut Vec<NamedFile>,
    name: &str,
    bytes: Vec<u8>,
) -> Result<(), AllocError>
    requires { position (is_named name.now) files.old.items ≡ None }
    ensures ok { OnOk result
        (SetsFile name.now bytes.items (file_map files.old.items) (file_map files.new.items)) }
    ensures err { OnErr result (files.new.items ≡ files.old.items) }
    ensures others { SameOthers name.now (file_map files.old.items) (file_map files.new.items) }
{
    let name = String::from_str(alloc, name)?;
    files.push(NamedFile { name, bytes })?;
    Ok(())
}

// Adds a piece at a file's end. A file that is there grows in place, so that its cost is spread
// over many pieces.
pub(crate) fn grow_file(
    alloc: Global,
    files: &mut Vec<NamedFile>,
    name: &str,
    piece: &[u8],
) -> Result<(), AllocError>
    ensures ok { OnOk result
        (SetsFile name.now (content (file_map files.old.items name.now) ++ piece.now)
        (file_map files.old.items) (file_map files.new.items)) }
    ensures err { OnErr result (file_map files.new.items ≡ file_map files.old.items) }
    ensures others { SameOthers name.now (file_map files.old.items) (file_map files.new.items) }
{
    match place_of(files, name) {
        Some(place) => {
            files[place].bytes.extend_from_slice(piece)?;
            Ok(())
        }
        None => add_file(alloc, files, name, piece.to_vec(alloc)?),
    }
}
