ghost use Rattle.std.specs.Prelude.{◌≡◌, ◌*◌, ◌^◌, ◌<◌, ◌≤◌, length, IfOk, OnErr};
ghost use Rattle.pg_bytes.specs.PageLayout.{page_size};
ghost use Rattle.posting_tree.specs.PostingTree.{AddsTree, Extends, IsReadAs};
ghost use Rattle.posting_tree.specs.Segments.{AreAscending};

use crate::leaves::put_leaves;
use crate::level::put_level;
use pg_bytes::{IndexImage, RowPtr};
use std::alloc::{AllocError, Global};

/// Puts the posting tree of these pointers behind the blocks of an image, and answers its root
/// (`createPostingTree` of `gindatapage.c`). An error means that no memory was left, and then the
/// image has whole pages more.
pub fn build_tree(alloc: Global, image: &mut IndexImage, ptrs: &[RowPtr]) -> Result<u32, AllocError>
    requires some { 0 < length ptrs.now }
    requires few { length ptrs.now < 2 ^ 30 }
    requires ascending { AreAscending ptrs.now }
    requires room { length image.old ≤ 2 ^ 30 * page_size }
    ensures tree { IfOk result (λ root. AddsTree image.old image.new root ptrs.now) }
    ensures reads { IfOk result (λ root. IsReadAs image.new root ptrs.now) }
    ensures err { OnErr result (Extends image.old image.new) }
{
    let mut level = put_leaves(alloc, image, ptrs)?;
    while level.keys.len() > 1 {
        level = put_level(alloc, image, &level)?;
    }
    Ok(level.first)
}
