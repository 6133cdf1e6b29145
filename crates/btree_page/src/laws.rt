//! Pages are read as what they were written to say.

ghost use Rattle.btree_page.specs.Laws.{MetaIsReadBack, PagesAreReadBack, SpecialSpacesAreRead};

/// The meta page is read as what it was written to say, and as nothing else. A law of the
/// definitions: the call does nothing.
pub fn meta_is_read_back()
    ensures { MetaIsReadBack }
{}

/// A page that was made of a special space, a high key or none, and items is read as these, where
/// it has a high key exactly if it has a right neighbour. A law of the definitions: the call does
/// nothing.
pub fn pages_are_read_back()
    ensures { PagesAreReadBack }
{}

/// A page whose last 16 bytes are those of a special space is read as it. A law of the definitions:
/// the call does nothing.
pub fn special_spaces_are_read()
    ensures { SpecialSpacesAreRead }
{}
