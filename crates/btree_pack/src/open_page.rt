ghost use Rattle.std.specs.Prelude.{◌≡◌, ◌+◌, ◌++◌, ◌∷◌, ◌<◌, ◌≤◌, ◌^◌, false, All, IfOk, OnOk, drop, length};
ghost use Rattle.btree_pack.specs.Break.{page_room, spare};
ghost use Rattle.btree_pack.specs.Nodes.{flags_on};
ghost use Rattle.btree_pack.specs.Pass.Buffer.{tuples_cut, tuples_size};
ghost use Rattle.btree_pack.specs.Pass.Joining.{AreJoining, fill_of};
ghost use Rattle.btree_pack.specs.Pass.Packing.{IsOpen, IsTuple, finished_bytes, first_form, first_page, is_full, last_bytes, next_page, pivot_of, room_of, used, with_tuple};
ghost use Rattle.btree_pack.specs.Pass.Run.{IsLeaf};
ghost use Rattle.btree_pack.specs.Tuple.{with_child};

use crate::leaves::{LeafSize, Leaves};
use crate::page_fill::{PageFill, SPARE};
use crate::tuples::Tuples;
use btree_page::{PageFlag, SpecialSpace};
use byteorder::{ByteOrder, LittleEndian};
use pg_bytes::{LINE_POINTER, PageBuf};
use std::alloc::{AllocError, Global};
use std::marker::Model;
use std::mem;

// The bytes of a tuple without keys (`sizeof(IndexTupleData)`).
const MINUS_INFINITY: usize = 8;

/// The open page of a level (`BTPageState` of `nbtsort.c`), seen as its place in the file and its
/// tuples.
#[derive(Debug, Drop)]
pub struct OpenPage {
    level: u32,
    block: u32,
    prev: u32,
    low_key: Vec<u8>,
    before: Tuples,
    last: Vec<u8>,
    extra: usize,
    // What the tuples take with their line pointers.
    taken: usize,
}

impl Model for OpenPage {
    ghost use Rattle.std.specs.Prelude.{List, ℕ};
    ghost use Rattle.btree_pack.specs.Pass.Packing.{IsOpen, PageState};

    ghost Value = { PageState };

    ghost view = { λ page. record {
      level = page.level;
      block = page.block;
      prev = page.prev;
      low_key = page.low_key.items;
      before = page.before;
      last = page.last.items;
      extra = page.extra;
    } };

    ghost invariant = { λ page. IsOpen (record {
      level = page.level;
      block = page.block;
      prev = page.prev;
      low_key = page.low_key.items;
      before = page.before;
      last = page.last.items;
      extra = page.extra;
    }) page.taken };
}

impl OpenPage {
    /// The first page of a level, with its first tuple.
    pub fn first(
        alloc: Global,
        level: u32,
        block: u32,
        low_key: Vec<u8>,
        tuple: &[u8],
        extra: usize,
    ) -> Result<OpenPage, AllocError>
        requires block { block < 2 ^ 31 }
        requires level { level < 2 ^ 31 }
        requires low_key { IsTuple low_key.items }
        requires tuple { IsTuple tuple.now }
        requires extra { extra ≤ 8192 }
        ensures { IfOk result (λ page.
            page ≡ first_page level block low_key.items tuple.now extra) }
    {
        let mut last = Vec::from_slice(alloc, tuple)?;
        make_first(level, &mut last);
        let taken = last.len() + LINE_POINTER;
        Ok(OpenPage {
            level,
            block,
            prev: 0,
            low_key,
            before: Tuples::new(alloc),
            last,
            extra,
            taken,
        })
    }

    /// The page's block.
    pub fn block(&self) -> u32
        ensures block { result ≡ self.now.block }
        ensures bound { result < 2 ^ 31 }
    {
        self.block
    }

    /// The page's level above the leaves.
    pub fn level(&self) -> u32
        ensures level { result ≡ self.now.level }
        ensures bound { result < 2 ^ 31 }
    {
        self.level
    }

    /// Whether a tuple of this size breaks the page: it has no room there, or enough is taken as
    /// the fill factor goes (`_bt_buildadd` of `nbtsort.c`).
    pub fn is_full(&self, fillfactor: u8, size: usize) -> bool
        requires { size ≤ 2712 }
        ensures full { result ≡ is_full fillfactor self.now size }
        ensures room { result ≡ false → used self.now + (size + spare self.now.level) ≤ page_room }
    {
        self.fill().breaks(fillfactor, size)
    }

    // How full the page is.
    fn fill(&self) -> PageFill
        ensures fill { result ≡ fill_of self.now }
        ensures open { IsOpen self.now result.taken }
    {
        PageFill {
            level: self.level,
            alone: self.before.is_empty(),
            taken: self.taken,
            extra: self.extra,
        }
    }

    /// How many of the leaf tuples from this number on join the page before one breaks it.
    pub fn joining(&self, fillfactor: u8, leaves: &Leaves, from: usize) -> usize
        requires leaves { All IsLeaf leaves.now }
        requires from { from ≤ length leaves.now }
        ensures { AreJoining fillfactor self.now (drop from leaves.now) result }
    {
        let most = leaves.len() - from;
        let mut fill = self.fill();
        for (count, size) in leaves.sizes(from, most).iter().enumerate() {
            let tuple = usize::from(size.tuple);
            if fill.breaks(fillfactor, tuple) {
                return count;
            }
            fill = fill.with(tuple, usize::from(size.extra));
        }
        most
    }

    /// How many bytes the page's high key may take.
    pub fn high_key_room(&self) -> usize
        ensures { result ≡ length self.now.last + spare self.now.level }
    {
        let spare = if self.level == 0 { SPARE } else { 0 };
        self.last.len() + spare
    }

    /// Adds a tuple. What it takes of the vector is given back: the vector has then the tuple that
    /// was the last one before. An error means that no memory was left.
    pub fn add(&mut self, tuple: &mut Vec<u8>, extra: usize) -> Result<(), AllocError>
        requires tuple { IsTuple tuple.old.items }
        requires room { used self.old + (length tuple.old.items + spare self.old.level)
            ≤ page_room }
        requires extra { extra ≤ 8192 }
        ensures { OnOk result (self.new ≡ with_tuple tuple.old.items extra self.old) }
    {
        self.before.push(&self.last)?;
        mem::swap(&mut self.last, tuple);
        self.extra = extra;
        self.taken += self.last.len() + LINE_POINTER;
        Ok(())
    }

    /// Adds tuples of these sizes, which stand one behind the other in these bytes, and then one
    /// more, as `add` does. An error means that no memory was left.
    pub fn add_all(
        &mut self,
        bytes: &[u8],
        sizes: &[LeafSize],
        tuple: &mut Vec<u8>,
        extra: usize,
    ) -> Result<(), AllocError>
        requires whole { tuples_size sizes.now ≡ length bytes.now }
        requires tuples { All IsTuple (tuples_cut sizes.now bytes.now) }
        requires tuple { IsTuple tuple.old.items }
        requires room { used self.old + room_of (tuples_cut sizes.now bytes.now)
            + (length tuple.old.items + spare self.old.level) ≤ page_room }
        requires extra { extra ≤ 8192 }
        ensures { OnOk result (self.new ≡ record self.old {
          before = self.old.before ++ self.old.last ∷ tuples_cut sizes.now bytes.now;
          last = tuple.old.items;
          extra = extra;
        }) }
    {
        self.before.push_all(&self.last, bytes, sizes)?;
        mem::swap(&mut self.last, tuple);
        self.extra = extra;
        self.taken += bytes.len() + LINE_POINTER * sizes.len();
        self.taken += self.last.len() + LINE_POINTER;
        Ok(())
    }

    /// The page as it stands in the file with a right neighbour and a high key, without its last
    /// tuple. An error means that no memory was left.
    pub fn finished(&self, alloc: Global, next: u32, high_key: &[u8]) -> Result<PageBuf, AllocError>
        requires tuple { IsTuple high_key.now }
        requires room { length high_key.now ≤ length self.now.last + spare self.now.level }
        ensures { IfOk result (λ page. page ≡ finished_bytes next high_key.now self.now) }
    {
        let mut page = self.before.page(alloc, &self.special(next, false), 1)?;
        page.put_item(1, high_key);
        Ok(page)
    }

    /// The page as it stands in the file as the last of its level. An error means that no memory
    /// was left.
    pub fn last(&self, alloc: Global, root: bool) -> Result<PageBuf, AllocError>
        ensures { IfOk result (λ page. page ≡ last_bytes root self.now) }
    {
        let mut page = self.before.page(alloc, &self.special(0, root), 0)?;
        page.put_item(self.before.len() as u16 + 1, &self.last);
        Ok(page)
    }

    // The page's special space.
    fn special(&self, next: u32, root: bool) -> SpecialSpace
        ensures { result ≡ record {
          prev = self.now.prev;
          next = next;
          level = self.now.level;
          flags = flags_on self.now.level root;
          cycle = 0;
        } }
    {
        let leaf = if self.level == 0 {
            PageFlag::Leaf.bit()
        } else {
            0
        };
        let top = if root { PageFlag::Root.bit() } else { 0 };
        SpecialSpace {
            prev: self.prev,
            next,
            level: self.level,
            flags: leaf + top,
            cycle: 0,
        }
    }

    /// Becomes the next page of the level, to which the last tuple goes over, and gives the tuple
    /// that the level above has for the page that it was.
    pub fn turn(&mut self, block: u32, high_key: Vec<u8>) -> Vec<u8>
        requires block { block < 2 ^ 31 }
        requires high_key { IsTuple high_key.items }
        ensures page { self.new ≡ next_page block high_key.items self.old }
        ensures pivot { result.items ≡ pivot_of self.old }
        ensures tuple { IsTuple result.items }
        ensures room { used self.new + (2712 + spare self.new.level) ≤ page_room }
    {
        let mut pivot = mem::replace(&mut self.low_key, high_key);
        lead_to(&mut pivot, self.block);
        self.prev = self.block;
        self.block = block;
        self.before.clear();
        make_first(self.level, &mut self.last);
        self.taken = self.last.len() + LINE_POINTER;
        pivot
    }

    /// The tuple that the level above has for the page.
    pub fn pivot(&self, alloc: Global) -> Result<Vec<u8>, AllocError>
        ensures pivot { IfOk result (λ pivot. pivot.items ≡ pivot_of self.now) }
        ensures tuple { IfOk result (λ pivot. IsTuple pivot.items) }
    {
        let mut pivot = Vec::from_slice(alloc, &self.low_key)?;
        lead_to(&mut pivot, self.block);
        Ok(pivot)
    }

    /// The last tuple.
    pub fn last_tuple(&self, alloc: Global) -> Result<Vec<u8>, AllocError>
        ensures last { IfOk result (λ tuple. tuple.items ≡ self.now.last) }
        ensures tuple { IfOk result (λ tuple. IsTuple tuple.items) }
    {
        Vec::from_slice(alloc, &self.last)
    }
}

// Makes a pivot tuple lead to a child (`BTreeTupleSetDownLink` of `nbtree.h`).
#[tactic(auto, unfolding(crate::specs::Tuple::with_child, pg_bytes::specs::Numbers::number_bytes))]
fn lead_to(pivot: &mut [u8], child: u32)
    requires { 4 ≤ length pivot.old }
    ensures { pivot.new ≡ with_child child pivot.old }
{
    let mut field = [0u8; 4];
    LittleEndian::write_u16(&mut field, (child >> 16) as u16);
    LittleEndian::write_u16(&mut field[2..], (child % (1 << 16)) as u16);
    pivot[..4].copy_from_slice(&field);
}

// Makes a tuple the first of a page of a level: above the leaves no key is kept there.
fn make_first(level: u32, tuple: &mut Vec<u8>)
    requires { IsTuple tuple.old.items }
    ensures form { tuple.new.items ≡ first_form level tuple.old.items }
    ensures tuple { IsTuple tuple.new.items }
{
    if level > 0 {
        make_minus_infinity(tuple);
    }
}

// Leaves a tuple its child alone, as minus infinity (`_bt_sortaddtup` of `nbtsort.c`).
#[tactic(auto, unfolding(pg_bytes::specs::Numbers::number_bytes))]
fn make_minus_infinity(tuple: &mut Vec<u8>)
    requires { 8 ≤ length tuple.old.items }
    ensures { tuple.new.items ≡ first_form 1 tuple.old.items }
{
    tuple.truncate(MINUS_INFINITY);
    let mut field = [0u8; 4];
    LittleEndian::write_u16(&mut field[2..], 0x2000 + MINUS_INFINITY as u16);
    tuple[4..8].copy_from_slice(&field);
}
