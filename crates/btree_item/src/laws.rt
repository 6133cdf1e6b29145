//! What holds of the tuples of a B-tree, whatever their values are.

ghost use Rattle.btree_item.specs.Laws.{EqualValuesHaveEqualImages, ImagesHaveTheirSizes, NothingKeptIsMinusInfinity, PivotsSeparate, TruncationIsDetermined, TuplesAreToldApart};

/// Rows with the same keys and INCLUDE values have the same plain images up to the row pointer, so
/// that rows with equal keys may share a posting tuple.
pub fn equal_values_have_equal_images()
    ensures { EqualValuesHaveEqualImages }
{}

/// The images are as long as their sizes say.
pub fn images_have_their_sizes()
    ensures { ImagesHaveTheirSizes }
{}

/// The pivot that keeps nothing is minus infinity, eight bytes.
pub fn nothing_kept_is_minus_infinity()
    ensures { NothingKeptIsMinusInfinity }
{}

/// Two tuples have one number of attributes that the pivot between them keeps.
pub fn truncation_is_determined()
    ensures { TruncationIsDetermined }
{}

/// The pivot between a left tuple and a right one is below no row of the left, and below each row
/// of the right.
pub fn pivots_separate()
    ensures { PivotsSeparate }
{}

/// Bytes are the tuple of one item at most, so a row's tuple, a posting tuple and a pivot never
/// have the same bytes.
pub fn tuples_are_told_apart()
    ensures { TuplesAreToldApart }
{}
