ghost use Rattle.std.specs.Prelude.{◌≡◌, ◌∷◌, ◌++◌, ◌<◌, ◌≤◌, ◌^◌, ℕ, List, [], IfOk, OnOk, length};
ghost use Rattle.opclass.specs.declared.types.ColType.{ColType};
ghost use Rattle.pg_bytes.specs.Places.{written};
ghost use Rattle.pg_bytes.specs.Pointers.{row_pointer_bytes};
ghost use Rattle.posting_tree.specs.Levels.{no_link};
ghost use Rattle.gin_file.specs.EntryTree.{Item, entry_page};
ghost use Rattle.gin_pack.specs.Pass.Placing.{AreCut, ArePlaceable, ArePlaced, CanPlace, HaveRoom, LeadsToPage, PlacesPage, Rises, link_behind};

use crate::level::{FullPage, Level};
use gin_file::{INNER, SPECIAL_PLACE};
use pg_bytes::{IndexImage, PageBuf, RowPtr};
use std::alloc::{AllocError, Global};

// The block of the root of the entry tree (`GIN_ROOT_BLKNO` of `ginblock.h`).
const ROOT: u32 = 1;

/// The most blocks of a file. PostgreSQL numbers more, and the entries of a heap need fewer.
pub const MOST_BLOCKS: u32 = 1 << 30;

/// Places the pages of a level and of the levels above it behind the blocks of an image, but for
/// the root, which is block 1. An error means that no memory was left.
pub fn place_levels(
    alloc: Global,
    image: &mut IndexImage,
    pages: Vec<FullPage>,
) -> Result<(), AllocError>
    requires { ArePlaceable image.old pages.items }
    ensures { OnOk result (Rises image.old image.new pages.items) }
{
    if pages.len() == 1 {
        image.place(ROOT, &pages[0].page)?;
        return Ok(());
    }
    let above = place_level(alloc, image, pages)?;
    let pages = above.finish()?;
    place_levels(alloc, image, pages)?;
    Ok(())
}

// Places the pages of a level behind the blocks of an image, linked from left to right, and gives
// the level above.
fn place_level(
    alloc: Global,
    image: &mut IndexImage,
    mut pages: Vec<FullPage>,
) -> Result<Level, AllocError>
    requires placeable { ArePlaceable image.old pages.items }
    requires many { 1 < length pages.items }
    ensures { IfOk result (λ above. (kind : ColType) → (flags : ℕ) → (full : List (List Item))
        → (last : List Item) → AreCut kind flags full last pages.items
        → ArePlaced kind flags (full ++ last ∷ []) image.old image.new above) }
{
    let mut above = Level::new(alloc, INNER)?;
    let end = image.blocks() as usize + pages.len();
    for at in 0..pages.len() {
        place_page(image, &mut above, &mut pages[at], end)?;
    }
    Ok(above)
}

// Places a page of a level that ends before a block behind the blocks of an image, and puts what
// leads to it into the level above.
fn place_page(
    image: &mut IndexImage,
    above: &mut Level,
    full: &mut FullPage,
    end: usize,
) -> Result<(), AllocError>
    requires { CanPlace above.old full.old }
    ensures page { OnOk result (PlacesPage image.old image.new full.old end) }
    ensures link { OnOk result (LeadsToPage image.old full.old above.old above.new) }
{
    let block = image.blocks();
    if block >= MOST_BLOCKS {
        return Err(AllocError);
    }
    link(&mut full.page, block, end);
    image.append(&full.page)?;
    lead_to(&mut full.key, block);
    above.put(&full.key, &full.key)?;
    Ok(())
}

// Links a page at a block to the next one, unless its level ends there.
fn link(page: &mut PageBuf, block: u32, end: usize)
    requires { block < 2 ^ 30 }
    ensures { (flags : ℕ) → (tuples : List (List ℕ)) → HaveRoom tuples
        → page.old ≡ entry_page flags no_link tuples
        → page.new ≡ entry_page flags (link_behind block end) tuples }
{
    if (block as usize) + 1 < end {
        page.put_u32(SPECIAL_PLACE, block + 1);
    }
}

// Makes a tuple of the entry tree lead to a page (`GinFormInteriorTuple` of `ginentrypage.c`).
fn lead_to(tuple: &mut Vec<u8>, block: u32)
    requires { 8 ≤ length tuple.old.items }
    ensures { tuple.new.items
        ≡ written (row_pointer_bytes (record { block = block; offset = 0 })) 0 tuple.old.items }
{
    let front = RowPtr { block, offset: 0 };
    front.put(tuple, 0);
}
