ghost use Rattle.std.specs.Prelude.{◌≡◌, ◌↔◌, ◌<◌, IsNone, IfSome};
ghost use Rattle.pg_bytes.specs.Blocks.{IsWhole, block_at, block_count};

use crate::PAGE;
use crate::page::Page;
use std::marker::Model;

/// A file of whole blocks that is read, seen as its list of bytes.
#[derive(Debug, Drop)]
pub struct Blocks<'a> {
    bytes: &'a [u8],
}

impl<'a> Model for Blocks<'a> {
    ghost use Rattle.std.specs.Prelude.{List, ℕ};
    ghost use Rattle.pg_bytes.specs.Blocks.{IsWhole};

    ghost Value = { List ℕ };

    ghost view = { λ blocks. blocks.bytes.now };

    ghost invariant = { λ blocks. IsWhole blocks.bytes.now };
}

impl<'a> Blocks<'a> {
    /// The blocks of a file's bytes. None comes exactly where the last block isn't whole.
    pub fn of(bytes: &'a [u8]) -> Option<Blocks<'a>>
        ensures refused { IsNone result ↔ (IsWhole bytes.now → ⊥) }
        ensures file { IfSome result (λ blocks. blocks ≡ bytes.now) }
    {
        if bytes.len() % PAGE == 0 {
            Some(Blocks { bytes })
        } else {
            None
        }
    }

    /// The blocks of a file's bytes that are whole blocks.
    pub fn of_whole(bytes: &'a [u8]) -> Blocks<'a>
        requires { IsWhole bytes.now }
        ensures { result ≡ bytes.now }
    {
        Blocks { bytes }
    }

    /// How many blocks there are.
    pub fn len(&self) -> usize
        ensures { result ≡ block_count self.now }
    {
        self.bytes.len() / PAGE
    }

    /// The page of a block, counted from 0.
    #[tactic(auto, unfolding(crate::specs::Blocks::block_at))]
    pub fn page(&self, block: usize) -> Page<'a>
        requires { block < block_count self.now }
        ensures { result ≡ block_at block self.now }
    {
        let file = self.bytes;
        let start = PAGE * block;
        Page::of_block(&file[start..start + PAGE])
    }

    /// The file's bytes, block after block.
    pub fn bytes(&self) -> &'a [u8]
        ensures value { result.now ≡ self.now }
        ensures whole { IsWhole result.now }
    {
        self.bytes
    }
}
