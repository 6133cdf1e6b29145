ghost use Rattle.std.specs.Prelude.{◌≡◌, ◌+◌, IfOk, length};
ghost use Rattle.heap_page.specs.Line.{IsLine, heap_line_count};
ghost use Rattle.hot_chain.specs.Pass.RootOffsets.{AreRootOffsets, IsClosed, IsWalked};

use crate::chain::{head_of, next_of};
use heap_page::View;
use std::alloc::{AllocError, Global};

// For each item of the page, by its number, the greatest start whose chain has it
// (`heap_get_root_tuples` of `pruneheap.c`). The starts are walked from the greatest down, so an
// item gets its root offset once.
pub(crate) fn root_offsets_of(alloc: Global, view: &View) -> Result<Vec<Option<u16>>, AllocError>
    ensures { IfOk result (λ offsets. AreRootOffsets view.now.bytes offsets.items) }
{
    let mut offsets = vec![in alloc; None; usize::from(view.lines()) + 1]?;
    for start in (1..view.lines() + 1).rev() {
        walk_chain(view, start, &mut offsets);
    }
    Ok(offsets)
}

// Makes the start the root offset of the items of its chain, from the head on, up to an item that
// has one: what follows that one has one too. So a page full of redirects to one long chain costs
// no more than any other.
fn walk_chain(view: &View, start: u16, offsets: &mut [Option<u16>])
    requires start { IsLine view.now.bytes start }
    requires room { length offsets.old ≡ heap_line_count view.now.bytes + 1 }
    requires closed { IsClosed view.now.bytes offsets.old }
    ensures walked { IsWalked view.now.bytes start offsets.old offsets.new }
    ensures closed { IsClosed view.now.bytes offsets.new }
{
    let mut reached = head_of(view, start);
    while let Some(item) = reached
        && offsets[usize::from(item)].is_none()
    {
        offsets[usize::from(item)] = Some(start);
        reached = next_of(view, item);
    }
}
