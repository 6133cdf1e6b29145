//! What holds of the definitions on which the file stands, whatever the items are.

ghost use Rattle.btree_pack.specs.Pass.Finish.{FinishedPackingIsTheFile, PackingGrowsByAnArrival};
ghost use Rattle.btree_pack.specs.Laws.{BlocksAreExact, ClosedTowerIsTheLevels, EachPageIsNamedOnce, FileHasTheNodes, FileIsDetermined, GroupsHoldTheRows, HistoryIsTheBirths, LeafItemsAreTheGroups, LeafItemsAreWritten, LeafItemsArriveInTurn, LeavesHoldTheItems, NodesArePages, NumbersStay, PagesAreNumberedAsBorn, PagesFit, StepTakesTheNextNumbers, TheLastLevelIsTheRoot, TowerGrowsByAStep};

/// Sorted rows are cut into groups that hold exactly the rows, each once, in order.
pub fn groups_hold_the_rows()
    ensures { GroupsHoldTheRows }
{}

/// A leaf's items are the tuples of the groups, in order.
pub fn leaf_items_are_the_groups()
    ensures { LeafItemsAreTheGroups }
{}

/// Leaf items arrive one a moment.
pub fn leaf_items_arrive_in_turn()
    ensures { LeafItemsArriveInTurn }
{}

/// The leaves from left to right hold exactly the items, each once, in order.
pub fn leaves_hold_the_items()
    ensures { LeavesHoldTheItems }
{}

/// Each level has an item for each page of the level below, once and in order, and no other.
pub fn each_page_is_named_once()
    ensures { EachPageIsNamedOnce }
{}

/// A level has another above it exactly where it has several pages, and the last one is the root
/// alone.
pub fn the_last_level_is_the_root()
    ensures { TheLastLevelIsTheRoot }
{}

/// Where no item is larger than a third of a page, each page holds its items, their line pointers
/// and its high key.
pub fn pages_fit()
    ensures { PagesFit }
{}

/// Leaf items tell the sizes of their tuples and separators.
pub fn leaf_items_are_written()
    ensures { LeafItemsAreWritten }
{}

/// Each node is a page of 8,192 bytes, where the tuples are written with the sizes that the items
/// tell.
pub fn nodes_are_pages()
    ensures { NodesArePages }
{}

/// No two pages have one block, and the blocks are 1, 2, 3 and so on up to the number of pages.
pub fn blocks_are_exact()
    ensures { BlocksAreExact }
{}

/// The file is its meta page and its nodes, a whole page each, and each node stands at its block.
pub fn file_has_the_nodes()
    ensures { FileHasTheNodes }
{}

/// A file that has the meta page and each node at its block, and no more blocks, is the file.
pub fn file_is_determined()
    ensures { FileIsDetermined }
{}

/// What stands after one item more is what the step makes of what stood before.
pub fn tower_grows_by_a_step()
    ensures { TowerGrowsByAStep }
{}

/// The levels that are left once the open pages are finished from below are the levels over all
/// items.
pub fn closed_tower_is_the_levels()
    ensures { ClosedTowerIsTheLevels }
{}

/// The pass makes each page once.
pub fn history_is_the_births()
    ensures { HistoryIsTheBirths }
{}

/// The pages are numbered in the order in which the pass makes them.
pub fn pages_are_numbered_as_born()
    ensures { PagesAreNumberedAsBorn }
{}

/// The pages that a step makes get the next numbers, from the lowest level up.
pub fn step_takes_the_next_numbers()
    ensures { StepTakesTheNextNumbers }
{}

/// A page keeps its number, whatever items come behind those that were there when it was born.
pub fn numbers_stay()
    ensures { NumbersStay }
{}

/// What the packer keeps of leaf items, finished, is exactly the file of their levels.
pub fn finished_packing_is_the_file()
    ensures { FinishedPackingIsTheFile }
{}

/// What the packer keeps of one leaf item more is what the arrival of it leaves.
pub fn packing_grows_by_an_arrival()
    ensures { PackingGrowsByAnArrival }
{}
