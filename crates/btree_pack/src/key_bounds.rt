//! Where the keys of a page lie, whatever the rows are.

ghost use Rattle.btree_pack.specs.KeyBounds.{KeysLieBetweenHighKeys, LeavesHaveTheKeys, LevelsAreToldByGroups, SeparatorsCompareAsPivots};

/// On each level of an index over sorted rows, no two of which are alike, each key of a page is at
/// most the page's high key and above its left neighbour's, and separators ascend.
pub fn keys_lie_between_high_keys()
    ensures { KeysLieBetweenHighKeys }
{}

/// The levels of an index are those of its items told by their groups: the same pages, whose
/// tuples and separators are written from the groups.
pub fn levels_are_told_by_groups()
    ensures { LevelsAreToldByGroups }
{}

/// The keys of the leaves from left to right are those of the rows, each once, in order.
pub fn leaves_have_the_keys()
    ensures { LeavesHaveTheKeys }
{}

/// A separator stands to a row as its pivot tuple does.
pub fn separators_compare_as_pivots()
    ensures { SeparatorsCompareAsPivots }
{}
