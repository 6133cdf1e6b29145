ghost use Rattle.heap_page.specs.Laws.{ItemsAreApart, ItemsAreSettled, ItemsEndInside};
ghost use Rattle.heap_page.specs.Laws.{LeastPageFaultIsOne};

/// A law, which computes nothing: a page has one least fault at most, so what `check_page` tells of
/// a page is determined.
pub fn least_page_fault_is_one()
    ensures { LeastPageFaultIsOne }
{}

/// A law, which computes nothing: no two tuples of a page without a fault share a byte.
pub fn items_are_apart()
    ensures { ItemsAreApart }
{}

/// A law, which computes nothing: each tuple of a page without a fault ends on the page, and its
/// hint bits say whether it is a row.
pub fn items_are_whole()
    ensures inside { ItemsEndInside }
    ensures settled { ItemsAreSettled }
{}
