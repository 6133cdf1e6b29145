ghost use Rattle.hot_chain.specs.Laws.{EachHasOneRoot, HasOneRootUnlessOrphan, HeapOnlyIsNoRoot, LeastChainFaultIsOne, RootsDiffer, RowsAreDetermined};

/// A live item that isn't an orphan has one root, so each of a page with sound chains has one, and
/// an index has one place for it. A law of the definitions: the call does nothing.
pub fn each_has_one_root()
    ensures unless_orphan { HasOneRootUnlessOrphan }
    ensures sound { EachHasOneRoot }
{}

/// No two live items of a page with sound chains have the same root, so an index entry leads to one
/// row (`README.HOT`). A law of the definitions: the call does nothing.
pub fn roots_differ()
    ensures { RootsDiffer }
{}

/// A heap-only tuple isn't its own root: an index has it under another line pointer. A law of the
/// definitions: the call does nothing.
pub fn heap_only_is_no_root()
    ensures { HeapOnlyIsNoRoot }
{}

/// The rows of a page are one list: which items are live, their order and their roots are
/// determined by the page's bytes. A law of the definitions: the call does nothing.
pub fn rows_are_determined()
    ensures { RowsAreDetermined }
{}

/// The fault that is told of a page's chains is one, item and cause. A law of the definitions: the
/// call does nothing.
pub fn least_chain_fault_is_one()
    ensures { LeastChainFaultIsOne }
{}
