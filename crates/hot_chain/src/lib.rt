//! HOT chains of a heap page: which rows the page has, and under which line pointer an index has
//! each.
//!
//! An update that changes no indexed column may put the new version on the same page and give it
//! no index entry (`README.HOT`). The new tuple is marked heap-only, the old one HOT-updated, and
//! its ctid leads to the new one: a chain. An index entry leads to the chain's root, the line
//! pointer of the first version, and stays there: once that version is dead and pruned away, the
//! root becomes a redirect to the first version that is left.
//!
//! So a chain begins at a start, which is a tuple that isn't heap-only, or a redirect, and goes on
//! from a tuple to the one that its ctid names, as long as the tuple is HOT-updated, neither its
//! insertion nor its update aborted, and the next tuple's xmin is its xmax. That last test tells a
//! line pointer that was used again for something else. The ctid's block isn't looked at, since a
//! HOT update stays on its page. The root of a row that isn't heap-only is the row itself. Of a
//! heap-only row it is the start whose chain has it, and the greatest where a broken page has
//! several, as `heap_get_root_tuples` of `pruneheap.c` leaves it.
//!
//! How it is done: each item has at most one that follows it, so two chains that meet go on as one.
//! The starts are walked from the greatest down, each item takes the first start that comes by as
//! its root offset, and a walk stops at an item that has one already, since all that follows has
//! one as well. So each item is visited once, whatever the redirects of a hostile page lead to.
//! Then the live items are taken by ascending number, each with its root, and each root is marked
//! as in the index, which tells the first that is shared. A page without a heap-only row, as most
//! are, needs no walk: its rows are their own roots.
//!
//! # What it promises
//!
//! - `find_roots` gives each live item once, by ascending number, with its root and nothing else.
//! - It gives them only for a page whose chains have no fault: each live heap-only tuple is in a
//!   chain, and no two live items have one root.
//! - Otherwise it tells the least item that has a fault and the number of its cause, or that memory
//!   ran out.
//! - The laws: a live item of a page with sound chains has one root and no other, no two have the
//!   same, a heap-only tuple is never its own, and there is one list of rows and one least fault of
//!   a page.
//!
//! # What is not
//!
//! - Chains are judged on a page that `check_page` let through, and whose tuples are settled: which
//!   versions some snapshot sees isn't asked.
//! - That an index has a row under its root is what the layers above make of it.
//! - That there is enough memory for a page's rows is tested and not proved.
#![tactic(auto)]

mod chain;
mod fault;
mod find;
mod laws;
mod root_offsets;
mod roots;

pub use fault::{RootCause, RootFault};
pub use find::find_roots;
pub use laws::{
    each_has_one_root, heap_only_is_no_root, least_chain_fault_is_one, roots_differ,
    rows_are_determined,
};
pub use roots::Roots;
