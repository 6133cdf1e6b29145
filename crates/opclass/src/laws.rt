//! What holds of the definitions that contracts cite, whatever the values are.

ghost use Rattle.opclass.specs.Laws.{ClashIsBetweenNeighbours, ClashIsSymmetric, ElementsAreOrdered, ElementsAreToldApart, FirstDifferenceDecides, KeyTypesHaveKeyValues, KeysAreOrdered, KeysAreToldApart, NormsAreOrderedAsKeys, NormsAreToldApart, NormsShowTheirEnd, PiecesShowTheirEnd, RowsAreOrdered, RowsAreToldApart};

/// Lists of values have a total order, so that sorts and maps take it.
#[tactic(auto, using(crate::proofs::KeyOrder::key_cmp_total))]
pub fn keys_are_ordered()
    ensures { KeysAreOrdered }
{}

/// Only equal lists of values compare equal.
#[tactic(auto, using(crate::proofs::KeyOrder::key_cmp_exact))]
pub fn keys_are_told_apart()
    ensures { KeysAreToldApart }
{}

/// The first column in which two lists of values differ decides.
pub fn first_difference_decides()
    ensures { FirstDifferenceDecides }
{}

/// Rows have a total order.
#[tactic(auto, using(crate::proofs::KeyOrder::row_cmp_total))]
pub fn rows_are_ordered()
    ensures { RowsAreOrdered }
{}

/// No two different rows compare equal.
#[tactic(auto, using(crate::proofs::KeyOrder::row_cmp_exact))]
pub fn rows_are_told_apart()
    ensures { RowsAreToldApart }
{}

/// The elements of arrays have a total order.
#[tactic(auto, using(crate::proofs::KeyOrder::elem_cmp_total))]
pub fn elements_are_ordered()
    ensures { ElementsAreOrdered }
{}

/// Only equal elements of arrays compare equal.
#[tactic(auto, using(crate::proofs::KeyOrder::elem_cmp_exact))]
pub fn elements_are_told_apart()
    ensures { ElementsAreToldApart }
{}

/// Which of two rows comes first doesn't matter to a clash.
#[tactic(auto, using(crate::proofs::KeyOrder::clash_symmetric))]
pub fn clash_is_symmetric()
    ensures { ClashIsSymmetric }
{}

/// Where the outer two of three neighbours in order clash, both neighbouring pairs do. So the rows
/// that clash stand side by side.
#[tactic(auto, using(crate::proofs::KeyOrder::clash_between))]
pub fn clash_is_between_neighbours()
    ensures { ClashIsBetweenNeighbours }
{}

/// A piece shows its end: what stands behind two pieces counts only where the values are equal.
pub fn pieces_show_their_end()
    ensures { PiecesShowTheirEnd }
{}

/// What stands behind two normalised keys counts only where the keys are equal.
pub fn norms_show_their_end()
    ensures { NormsShowTheirEnd }
{}

/// The order of normalised keys as unsigned bytes is the order of the keys.
pub fn norms_are_ordered_as_keys()
    ensures { NormsAreOrderedAsKeys }
{}

/// Only equal keys have equal normalised keys.
pub fn norms_are_told_apart()
    ensures { NormsAreToldApart }
{}

/// The values of a type that a B-tree takes as a key have normalised keys.
pub fn key_types_have_key_values()
    ensures { KeyTypesHaveKeyValues }
{}
