ghost use Rattle.heap_row.specs.Laws.{AttributesAreApart, AttributesAreInside, ValuesAreDetermined, ValuesAreOfTheirTypes};

/// A tuple's bytes, the table's columns and the needed ones determine the values, or the cause for
/// which there are none.
pub fn values_are_determined()
    ensures { ValuesAreDetermined }
{}

/// Each attribute of an item's tuple lies inside the item, behind its header.
pub fn attributes_are_inside()
    ensures { AttributesAreInside }
{}

/// No two attributes of a tuple share a byte.
pub fn attributes_are_apart()
    ensures { AttributesAreApart }
{}

/// What is read of a tuple's data are values of their columns' types, none longer than the data.
pub fn values_are_of_their_types()
    ensures { ValuesAreOfTheirTypes }
{}
