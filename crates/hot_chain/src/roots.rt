ghost use Rattle.std.specs.Prelude.{◌≡◌, [], ◌∷◌, ◌++◌, ◌<◌, ◌≤◌, length, slice_get, IfOk, IsSomeAnd, OnOk};

use std::alloc::{AllocError, Global};
use std::marker::Model;

/// The rows of a heap page: each live item once, by ascending number, and its root. Seen as the
/// list of them.
#[derive(Debug, Drop)]
pub struct Roots {
    rows: Vec<RowRoot>,
}

// A live item and its root, by their line pointers' numbers.
#[derive(Clone, Copy, Debug)]
struct RowRoot {
    item: u16,
    root: u16,
}

impl Model for Roots {
    ghost use Rattle.std.specs.Prelude.{List, map, length, ◌≤◌, ◌<◌, ◌^◌};
    ghost use Rattle.hot_chain.specs.Roots.{Row};

    ghost Value = { List Row };

    ghost view = { λ roots.
        map (λ row. record { item = row.item; root = row.root }) roots.rows.items };

    ghost invariant = { λ roots. length roots.rows.items < 2 ^ 16 };
}

impl Roots {
    ghost use Rattle.std.specs.Prelude.{◌+◌, ◌^◌};
    ghost use Rattle.hot_chain.specs.Roots.{Row};

    // No rows yet, with room for so many.
    pub(crate) fn with_capacity(alloc: Global, rows: u16) -> Result<Roots, AllocError>
        ensures { IfOk result (λ roots. roots ≡ []) }
    {
        Ok(Roots {
            rows: Vec::with_capacity(alloc, usize::from(rows))?,
        })
    }

    // Adds a row at the end.
    pub(crate) fn push(&mut self, item: u16, root: u16) -> Result<(), AllocError>
        requires { length self.old + 1 < 2 ^ 16 }
        ensures { OnOk result (self.new ≡ self.old ++ record { item = item; root = root } ∷ []) }
    {
        self.rows.push(RowRoot { item, root })?;
        Ok(())
    }

    /// How many rows the page has.
    pub fn rows(&self) -> u16
        ensures { result ≡ length self.now }
    {
        self.rows.len() as u16
    }

    /// The item of a row, counted from 0, by its line pointer's number.
    pub fn item(&self, i: u16) -> u16
        requires { i < length self.now }
        ensures { IsSomeAnd (slice_get self.now i) (λ row. row.item ≡ result) }
    {
        self.rows[usize::from(i)].item
    }

    /// The root of a row, counted from 0: the line pointer under which an index has the row.
    pub fn root(&self, i: u16) -> u16
        requires { i < length self.now }
        ensures { IsSomeAnd (slice_get self.now i) (λ row. row.root ≡ result) }
    {
        self.rows[usize::from(i)].root
    }
}
