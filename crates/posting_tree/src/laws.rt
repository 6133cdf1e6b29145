//! What holds of posting lists and posting trees, whatever their pointers are.

ghost use Rattle.posting_tree.specs.Laws.{DecodingUndoesEncoding, NumbersAreOrderedAsPointers, SegmentsAreOfOneList, TreesAreReadAsOneList};

/// The numbers of the pointers that a list may have are ordered as the pointers.
pub fn numbers_are_ordered_as_pointers()
    ensures { NumbersAreOrderedAsPointers }
{}

/// Bytes are the segments of one list of pointers at most.
pub fn segments_are_of_one_list()
    ensures { SegmentsAreOfOneList }
{}

/// What is decoded of the one segment of pointers is these pointers.
pub fn decoding_undoes_encoding()
    ensures { DecodingUndoesEncoding }
{}

/// A posting tree of a file is read as one list of pointers at most.
pub fn trees_are_read_as_one_list()
    ensures { TreesAreReadAsOneList }
{}
