ghost use Rattle.std.specs.Prelude.{◌≡◌, ◌+◌, ◌↔◌, length, IsTrue, IfOk, OnOk, IfErr, IfNone, IfSome};
ghost use Rattle.heap_page.specs.Line.{IsLine, IsNormal, heap_line_count};
ghost use Rattle.heap_page.specs.Settled.{AllSettled};
ghost use Rattle.hot_chain.specs.Chain.{IsHeapOnly, IsInNoChain};
ghost use Rattle.hot_chain.specs.Pass.RootOffsets.{AreRootOffsets};
ghost use Rattle.hot_chain.specs.Pass.Rows.{AreRowsOfItemsBelow};
ghost use Rattle.hot_chain.specs.Roots.{AreRows, HasSoundChains, IsLive, IsRoot, IsRootFault};

use crate::fault::{RootCause, RootFault};
use crate::root_offsets::root_offsets_of;
use crate::roots::Roots;
use heap_page::{RowState, View, state};
use std::alloc::{AllocError, Global};

/// The rows of a heap page with the roots under which indexes have them (`heap_get_root_tuples` of
/// `pruneheap.c`, `heapam_index_build_range_scan` of `heapam_handler.c`). On a page with faults it
/// tells the least fault, and it may run out of memory.
pub fn find_roots(alloc: Global, view: &View) -> Result<Roots, RootFault>
    requires { AllSettled view.now.bytes }
    ensures found { IfOk result (λ roots. AreRows view.now.bytes roots) }
    ensures sound { OnOk result (HasSoundChains view.now.bytes) }
    ensures refused { IfErr result (λ fault. IsRootFault view.now.bytes fault) }
{
    let mut offsets = None;
    let mut in_index = vec![in alloc; false; usize::from(view.lines()) + 1]?;
    let mut roots = Roots::with_capacity(alloc, view.lines())?;
    for item in 1..view.lines() + 1 {
        add_row(alloc, view, &mut offsets, item, &mut roots, &mut in_index)?;
    }
    Ok(roots)
}

// Adds the item's row, where the item is live, and puts its root in the index: `in_index` says of
// each line pointer whether it is the root of a row that was added, as that of
// `heapam_index_validate_scan` in `heapam_handler.c` does.
fn add_row(
    alloc: Global,
    view: &View,
    offsets: &mut Option<Vec<Option<u16>>>,
    item: u16,
    roots: &mut Roots,
    in_index: &mut [bool],
) -> Result<(), RootFault>
    requires line { IsLine view.now.bytes item }
    requires settled { AllSettled view.now.bytes }
    requires offsets { IfSome offsets.old
        (λ known. AreRootOffsets view.now.bytes known.items) }
    requires room { length in_index.old ≡ heap_line_count view.now.bytes + 1 }
    requires done { AreRowsOfItemsBelow view.now.bytes item roots.old in_index.old }
    ensures offsets { OnOk result
        (IfSome offsets.new (λ known. AreRootOffsets view.now.bytes known.items)) }
    ensures ok { OnOk result
        (AreRowsOfItemsBelow view.now.bytes (item + 1) roots.new in_index.new) }
    ensures err { IfErr result (λ fault. IsRootFault view.now.bytes fault) }
{
    if !is_live(view, item) {
        return Ok(());
    }
    let Some(root) = root_of(alloc, view, offsets, item)? else {
        return Err(RootFault::of(item, RootCause::Orphan));
    };
    if in_index[usize::from(root)] {
        return Err(RootFault::of(item, RootCause::SharedRoot));
    }
    in_index[usize::from(root)] = true;
    roots.push(item, root)?;
    Ok(())
}

// Whether the item is a row.
fn is_live(view: &View, item: u16) -> bool
    requires line { IsLine view.now.bytes item }
    requires settled { AllSettled view.now.bytes }
    ensures { IsTrue result ↔ IsLive view.now.bytes item }
{
    view.is_normal(item) && state(&view.header(item)) == RowState::Live
}

// The item's root: the item itself, or of a heap-only one the greatest start whose chain has it.
// None comes where no chain has it. The chains are walked for the first heap-only row: most pages
// have none.
fn root_of(
    alloc: Global,
    view: &View,
    offsets: &mut Option<Vec<Option<u16>>>,
    item: u16,
) -> Result<Option<u16>, AllocError>
    requires normal { IsNormal view.now.bytes item }
    requires offsets { IfSome offsets.old
        (λ known. AreRootOffsets view.now.bytes known.items) }
    ensures offsets { OnOk result
        (IfSome offsets.new (λ known. AreRootOffsets view.now.bytes known.items)) }
    ensures root { IfOk result (λ root. IfSome root (IsRoot view.now.bytes item)) }
    ensures line { IfOk result (λ root. IfSome root (IsLine view.now.bytes)) }
    ensures heap_only { IfOk result (λ root. IfNone root (IsHeapOnly view.now.bytes item)) }
    ensures in_no_chain { IfOk result (λ root. IfNone root (IsInNoChain view.now.bytes item)) }
{
    if !view.header(item).is_heap_only() {
        return Ok(Some(item));
    }
    let known = known_offsets(alloc, view, offsets)?;
    let root = greatest_start(view, &known, item);
    *offsets = Some(known);
    Ok(root)
}

// The root offsets of a page, which are taken out where they are known already.
fn known_offsets(
    alloc: Global,
    view: &View,
    offsets: &mut Option<Vec<Option<u16>>>,
) -> Result<Vec<Option<u16>>, AllocError>
    requires { IfSome offsets.old (λ known. AreRootOffsets view.now.bytes known.items) }
    ensures { IfOk result (λ known. AreRootOffsets view.now.bytes known.items) }
{
    match offsets.take() {
        Some(known) => Ok(known),
        None => root_offsets_of(alloc, view),
    }
}

// The greatest start whose chain has a heap-only item. None comes where no chain has it.
fn greatest_start(view: &View, offsets: &[Option<u16>], item: u16) -> Option<u16>
    requires heap_only { IsHeapOnly view.now.bytes item }
    requires line { IsLine view.now.bytes item }
    requires offsets { AreRootOffsets view.now.bytes offsets.now }
    ensures root { IfSome result (IsRoot view.now.bytes item) }
    ensures line { IfSome result (IsLine view.now.bytes) }
    ensures in_no_chain { IfNone result (IsInNoChain view.now.bytes item) }
{
    offsets[usize::from(item)]
}
