//! What holds of tuples and of files, whatever their bytes are.

ghost use Rattle.gin_file.specs.Laws.{FilesAreReadAsOneMap, TuplesAreOfOneItem};

/// Bytes are the tuple of one item at most, once the column's type and the kind of page are known:
/// two entries, two lists or two blocks never have the same bytes.
pub fn tuples_are_of_one_item()
    ensures { TuplesAreOfOneItem }
{}

/// A file is read as one list of postings at most, once the column's type is known, and so is the
/// file of one map.
pub fn files_are_read_as_one_map()
    ensures { FilesAreReadAsOneMap }
{}
