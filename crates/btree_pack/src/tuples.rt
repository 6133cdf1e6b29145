ghost use Rattle.std.specs.Prelude.{◌≡◌, ◌↔◌, [], ◌∷◌, ◌++◌, ◌+◌, ◌*◌, ◌<◌, ◌≤◌, ◌^◌, All, IfOk, IsTrue, OnErr, OnOk, length, map, vec_capacity, vec_len};
ghost use Rattle.btree_page.specs.SpecialSpace.{special_bytes};
ghost use Rattle.btree_pack.specs.Pass.Begun.{begun_page};
ghost use Rattle.btree_pack.specs.Pass.Buffer.{tuples_cut, tuples_size};
ghost use Rattle.btree_pack.specs.Pass.Packing.{IsTuple, room_of};

use crate::leaves::LeafSize;
use btree_page::{SPECIAL_BYTES, SpecialSpace};
use pg_bytes::{LINE_POINTER, PAGE_HEADER, PD_LOWER, PageBuf};
use std::alloc::{AllocError, Global};
use std::marker::Model;

/// The tuples of a page in their order, one behind the other in a buffer.
#[derive(Debug, Drop)]
pub struct Tuples {
    bytes: Vec<u8>,
    sizes: Vec<u16>,
}

impl Model for Tuples {
    ghost use Rattle.std.specs.Prelude.{List, ℕ, ◌≡◌, length, sum};
    ghost use Rattle.std.specs.Coded.{coded_ℕ, coded_list};
    ghost use Rattle.btree_pack.specs.Pass.Buffer.{cut_by};

    ghost Value = { List (List ℕ) };

    ghost coded = { coded_list (coded_list coded_ℕ) };

    ghost view = { λ tuples. cut_by tuples.sizes.items tuples.bytes.items };

    ghost invariant = { λ tuples. sum tuples.sizes.items ≡ length tuples.bytes.items };
}

impl Tuples {
    /// No tuples, which take no memory.
    pub fn new(alloc: Global) -> Tuples
        ensures { result ≡ [] }
    {
        Tuples {
            bytes: Vec::new(alloc),
            sizes: Vec::new(alloc),
        }
    }

    /// Whether there is none.
    pub fn is_empty(&self) -> bool
        ensures { IsTrue result ↔ (self.now ≡ []) }
    {
        self.sizes.is_empty()
    }

    /// How many there are.
    pub fn len(&self) -> usize
        ensures { result ≡ length self.now }
    {
        self.sizes.len()
    }

    /// Adds a tuple at the end. An error means that no memory was left, and then nothing changes.
    pub fn push(&mut self, tuple: &[u8]) -> Result<(), AllocError>
        requires { length tuple.now < 2 ^ 16 }
        ensures ok { OnOk result (self.new ≡ self.old ++ tuple.now ∷ []) }
        ensures err { OnErr result (self.new ≡ self.old) }
    {
        self.sizes.reserve(1)?;
        self.bytes.extend_from_slice(tuple)?;
        self.sizes.push_reserved(tuple.len() as u16);
        Ok(())
    }

    /// Adds a tuple at the end, and behind it all those of these sizes, which stand one behind the
    /// other in these bytes. An error means that no memory was left, and then nothing changes.
    pub fn push_all(
        &mut self,
        tuple: &[u8],
        bytes: &[u8],
        sizes: &[LeafSize],
    ) -> Result<(), AllocError>
        requires small { length tuple.now < 2 ^ 16 }
        requires whole { tuples_size sizes.now ≡ length bytes.now }
        ensures ok { OnOk result
            (self.new ≡ self.old ++ tuple.now ∷ tuples_cut sizes.now bytes.now) }
        ensures err { OnErr result (self.new ≡ self.old) }
    {
        self.sizes.reserve(sizes.len() + 1)?;
        self.bytes.reserve(tuple.len() + bytes.len())?;
        self.bytes.extend_from_slice(tuple)?;
        self.bytes.extend_from_slice(bytes)?;
        self.sizes.push_reserved(tuple.len() as u16);
        push_sizes(&mut self.sizes, sizes);
        Ok(())
    }

    /// Takes all tuples away and keeps the memory.
    pub fn clear(&mut self)
        ensures { self.new ≡ [] }
    {
        self.bytes.clear();
        self.sizes.clear();
    }

    /// A page with these tuples, where so many line pointers before theirs are left for a high key.
    /// An error means that no memory was left.
    pub fn page(
        &self,
        alloc: Global,
        special: &SpecialSpace,
        reserved: u16,
    ) -> Result<PageBuf, AllocError>
        requires reserved { reserved ≤ 1 }
        requires tuples { All IsTuple self.now }
        requires room { 4 * reserved + room_of self.now ≤ 8152 }
        ensures { IfOk result (λ page.
            page ≡ begun_page (special_bytes special.now) reserved self.now) }
    {
        let mut page = begun(alloc, special, reserved)?;
        let mut place = 0usize;
        for (at, size) in self.sizes.iter().enumerate() {
            let end = place + usize::from(*size);
            page.put_item(at as u16 + reserved + 1, &self.bytes[place..end]);
            place = end;
        }
        Ok(page)
    }
}

// Adds the sizes of these leaf tuples, for which there is memory.
fn push_sizes(all: &mut Vec<u16>, sizes: &[LeafSize])
    requires { vec_len all.old + length sizes.now ≤ vec_capacity all.old }
    ensures { all.new.items ≡ all.old.items ++ map (λ size. size.tuple) sizes.now }
{
    for size in sizes {
        all.push_reserved(size.tuple);
    }
}

// A page without tuples, where so many line pointers are left for a high key (`_bt_blnewpage` of
// `nbtsort.c`).
fn begun(alloc: Global, special: &SpecialSpace, reserved: u16) -> Result<PageBuf, AllocError>
    requires { reserved ≤ 1 }
    ensures { IfOk result (λ page. page ≡ begun_page (special_bytes special.now) reserved []) }
{
    let mut page = PageBuf::new(alloc, SPECIAL_BYTES as u16)?;
    special.put(&mut page);
    page.put_u16(
        PD_LOWER,
        PAGE_HEADER as u16 + LINE_POINTER as u16 * reserved,
    );
    Ok(page)
}
