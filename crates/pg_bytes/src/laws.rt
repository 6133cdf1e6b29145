ghost use Rattle.pg_bytes.specs.Laws.{ItemsAreRead, LowestIsReadFirst};

/// A page that is made of items, with room for them before its special space, is read as these
/// items in their order and this special space (`PageGetItem` of `bufpage.h`). A law of the
/// definitions: the call does nothing.
pub fn items_are_read()
    ensures { ItemsAreRead }
{}

/// A page whose first item lies lowest, as a B-tree's page with its high key, is read as its items
/// too, this one first (`P_HIKEY` of `nbtree.h`). A law of the definitions: the call does nothing.
pub fn lowest_is_read_first()
    ensures { LowestIsReadFirst }
{}
