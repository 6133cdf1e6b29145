ghost use Rattle.std.specs.Prelude.{◌≡◌, ◌+◌, ◌-◌, ◌<◌, ◌≤◌, ◌^◌, [], ◌∷◌, ◌++◌, IfSome, OnErr, OnOk, drop, length, map, slice_get, take};
ghost use Rattle.std.specs.List.{flat_map};
ghost use Rattle.btree_pack.specs.Pass.Buffer.{IsPlaceIn, leaves_from, place_of, size_of};

use std::alloc::{AllocError, Global};
use std::marker::Model;

/// How many bytes a leaf tuple takes, how many of them are its list of row pointers, and how many
/// its separator takes.
#[derive(Clone, Copy, Debug)]
pub struct LeafSize {
    pub tuple: u16,
    pub extra: u16,
    pub separator: u16,
}

/// The number of a leaf tuple, counted from 0, where it begins among the tuples, and where its
/// separator does among the separators.
#[derive(Clone, Copy, Debug)]
pub struct LeafPlace {
    pub number: usize,
    pub tuple: usize,
    pub separator: usize,
}

/// Where the first leaf tuple begins.
pub const FIRST: LeafPlace = LeafPlace {
    number: 0,
    tuple: 0,
    separator: 0,
};

/// Leaf tuples in their order, one behind the other in a buffer, and their separators in another.
#[derive(Debug, Drop)]
pub struct Leaves {
    tuples: Vec<u8>,
    separators: Vec<u8>,
    sizes: Vec<LeafSize>,
}

impl Model for Leaves {
    ghost use Rattle.std.specs.Prelude.{List};
    ghost use Rattle.btree_pack.specs.Pass.Run.{Leaf};

    ghost Value = { List Leaf };

    ghost use Rattle.btree_pack.specs.Pass.Buffer.{AreSizes, leaves_cut};

    ghost view = { λ leaves.
        leaves_cut leaves.sizes.items leaves.tuples.items leaves.separators.items };

    ghost invariant = { λ leaves.
        AreSizes leaves.sizes.items leaves.tuples.items leaves.separators.items };
}

impl Leaves {
    /// No leaf tuples, which take no memory.
    pub fn new(alloc: Global) -> Leaves
        ensures { result ≡ [] }
    {
        Leaves {
            tuples: Vec::new(alloc),
            separators: Vec::new(alloc),
            sizes: Vec::new(alloc),
        }
    }

    /// How many there are.
    pub fn len(&self) -> usize
        ensures { result ≡ length self.now }
    {
        self.sizes.len()
    }

    /// Adds the leaf tuple that these bytes begin with, of so many bytes, and its separator, which
    /// the others are. An error means that no memory was left, and then nothing changes.
    pub fn push(&mut self, bytes: &[u8], tuple: usize, extra: usize) -> Result<(), AllocError>
        requires tuple { tuple ≤ length bytes.now }
        requires small { length bytes.now < 2 ^ 16 }
        requires extra { extra < 2 ^ 16 }
        ensures ok { OnOk result (self.new ≡ self.old ++ (record {
          tuple = take tuple bytes.now;
          extra = extra;
          separator = drop tuple bytes.now;
        }) ∷ []) }
        ensures err { OnErr result (self.new ≡ self.old) }
    {
        let separator = &bytes[tuple..];
        self.sizes.reserve(1)?;
        self.separators.reserve(separator.len())?;
        self.tuples.extend_from_slice(&bytes[..tuple])?;
        self.separators.extend_from_slice(separator)?;
        self.sizes.push_reserved(LeafSize {
            tuple: tuple as u16,
            extra: extra as u16,
            separator: separator.len() as u16,
        });
        Ok(())
    }

    /// How many bytes of the leaf tuple of this number are its list of row pointers.
    pub fn extra(&self, number: usize) -> usize
        requires { number < length self.now }
        ensures { IfSome (slice_get self.now number) (λ leaf. result ≡ leaf.extra) }
    {
        usize::from(self.sizes[number].extra)
    }

    /// The leaf tuple at a place.
    pub fn tuple(&self, place: LeafPlace) -> &[u8]
        requires { IsPlaceIn self.now place }
        ensures { IfSome (slice_get self.now place.number) (λ leaf. result.now ≡ leaf.tuple) }
    {
        let size = self.sizes[place.number];
        &self.tuples[place.tuple..place.tuple + usize::from(size.tuple)]
    }

    /// The separator of the leaf tuple at a place.
    pub fn separator(&self, place: LeafPlace) -> &[u8]
        requires { IsPlaceIn self.now place }
        ensures { IfSome (slice_get self.now place.number) (λ leaf.
            result.now ≡ leaf.separator) }
    {
        let size = self.sizes[place.number];
        &self.separators[place.separator..place.separator + usize::from(size.separator)]
    }

    /// Where the leaf tuple of so many numbers more begins, or where they end.
    pub fn behind(&self, place: LeafPlace, count: usize) -> LeafPlace
        requires place { place ≡ place_of place.number self.now }
        requires within { place.number + count ≤ length self.now }
        ensures { result ≡ place_of (place.number + count) self.now }
    {
        let mut behind = place;
        let sizes = &self.sizes[place.number..place.number + count];
        for size in sizes {
            behind.number += 1;
            behind.tuple += usize::from(size.tuple);
            behind.separator += usize::from(size.separator);
        }
        behind
    }

    /// The sizes of so many leaf tuples from a number on.
    pub fn sizes(&self, number: usize, count: usize) -> &[LeafSize]
        requires { number + count ≤ length self.now }
        ensures { result.now ≡ map size_of (leaves_from number count self.now) }
    {
        &self.sizes[number..number + count]
    }

    /// The leaf tuples from one on that are before another, one behind the other.
    pub fn tuples(&self, first: LeafPlace, last: LeafPlace) -> &[u8]
        requires first { first ≡ place_of first.number self.now }
        requires last { last ≡ place_of last.number self.now }
        requires order { first.number ≤ last.number }
        requires within { last.number ≤ length self.now }
        ensures { result.now ≡ flat_map (λ leaf. leaf.tuple)
            (leaves_from first.number (last.number - first.number) self.now) }
    {
        &self.tuples[first.tuple..last.tuple]
    }
}
