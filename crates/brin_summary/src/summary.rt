ghost use Rattle.std.specs.Prelude.{◌≡◌, [], ◌∷◌, ◌++◌, ◌*◌, List, length, map, replicate, IfOk, OnErr, OnOk, unwrap_or};
ghost use Rattle.opclass.specs.declared.value.KeyVal.{KeyVal};
ghost use Rattle.opclass.specs.declared.value.KeyVal.TheVariants.{Nil};
ghost use Rattle.brin_summary.specs.Pass.{columns_from, row_columns};
ghost use Rattle.brin_summary.specs.Summary.{joined, joined_columns, summary_of};
ghost use Rattle.brin_summary.specs.Tuple.{bounds_of};

use crate::bound::{is_null, new_high, new_low, take_greater, take_lesser};
use opclass::{KeyList, KeyVal};
use pg_bytes::Items;
use std::alloc::{AllocError, Global};
use std::marker::Model;

/// What is known of the rows of a range of blocks: whether there is one, and of each column the
/// least value, the greatest one, and whether a null is among them. Seen as that.
#[derive(Debug, Drop)]
pub struct Summary {
    alloc: Global,
    has_rows: bool,
    // The least and the greatest value of each column, a pair behind the other, null where the
    // column has no value.
    bounds: Vec<KeyVal>,
    nulls: Vec<bool>,
}

/// Summaries of ranges in their order, as each worker has them.
pub type Summaries = Items<Summary>;

impl Model for Summary {
    ghost use Rattle.std.specs.Prelude.{◌≡◌, ◌*◌, length};
    ghost use Rattle.brin_summary.specs.Summary.{RangeSummary};
    ghost use Rattle.brin_summary.specs.Pass.{columns_from};

    ghost Value = { RangeSummary };

    ghost view = { λ summary. record {
      has_rows = summary.has_rows;
      columns = columns_from summary.bounds.items summary.nulls.items;
    } };

    ghost invariant = { λ summary. length summary.bounds.items ≡ 2 * length summary.nulls.items };
}

impl Summary {
    /// The summary of no rows, of so many columns. An error means that no memory was left.
    pub fn empty(alloc: Global, columns: u16) -> Result<Summary, AllocError>
        ensures { IfOk result (λ summary. summary ≡ summary_of columns []) }
    {
        let bounds = no_values(alloc, 2 * usize::from(columns))?;
        let nulls = vec![in alloc; false; usize::from(columns)]?;
        Ok(Summary {
            alloc,
            has_rows: false,
            bounds,
            nulls,
        })
    }

    /// Takes one row more in, by its values, one a column. An error means that no memory was left,
    /// and then the summary is unchanged.
    pub fn add(&mut self, keys: &KeyList) -> Result<(), AllocError>
        requires { length keys.now ≡ length self.old.columns }
        ensures ok { OnOk result
            (self.new ≡ joined self.old (summary_of (length keys.now) (keys.now ∷ []))) }
        ensures rows { OnOk result ((rows : List (List KeyVal))
            → self.old ≡ summary_of (length keys.now) rows
            → self.new ≡ summary_of (length keys.now) (rows ++ keys.now ∷ [])) }
        ensures err { OnErr result (self.new ≡ self.old) }
    {
        let alloc = self.alloc;
        let Summary { bounds, nulls, .. } = self;
        add_values(alloc, bounds, nulls, keys.as_slice())?;
        self.has_rows = true;
        Ok(())
    }

    /// Takes the rows of another summary in, which takes no memory.
    pub fn union(&mut self, other: Summary)
        requires { length other.columns ≡ length self.old.columns }
        ensures { self.new ≡ joined self.old other }
    {
        let Summary {
            has_rows,
            bounds: mut other_bounds,
            nulls: other_nulls,
            ..
        } = other;
        join_columns(
            &mut self.bounds,
            &mut self.nulls,
            &mut other_bounds,
            &other_nulls,
        );
        self.has_rows |= has_rows;
    }

    /// How many columns there are.
    pub fn columns(&self) -> usize
        ensures { result ≡ length self.now.columns }
    {
        self.nulls.len()
    }

    /// Whether there is a row.
    pub(crate) fn has_rows(&self) -> bool
        ensures { result ≡ self.now.has_rows }
    {
        self.has_rows
    }

    /// The least and the greatest value of each column, a pair behind the other.
    pub(crate) fn bounds(&self) -> &[KeyVal]
        ensures { result.now ≡ bounds_of self.now.columns }
    {
        &self.bounds
    }

    /// Of each column whether it has a null.
    pub(crate) fn nulls(&self) -> &[bool]
        ensures { result.now ≡ map (λ column. column.has_null) self.now.columns }
    {
        &self.nulls
    }
}

// So many nulls.
fn no_values(alloc: Global, count: usize) -> Result<Vec<KeyVal>, AllocError>
    ensures { IfOk result (λ values. values.items ≡ replicate count Nil) }
{
    let mut values = Vec::with_capacity(alloc, count)?;
    for _place in 0..count {
        values.push(KeyVal::Nil)?;
    }
    Ok(values)
}

// Takes the values of a row into these columns. What replaces a bound waits until all columns have
// what replaces theirs, so that want of memory leaves them unchanged.
fn add_values(
    alloc: Global,
    bounds: &mut [KeyVal],
    nulls: &mut [bool],
    values: &[KeyVal],
) -> Result<(), AllocError>
    requires bounds { length bounds.old ≡ 2 * length values.now }
    requires nulls { length nulls.old ≡ length values.now }
    ensures ok { OnOk result (columns_from bounds.new nulls.new
        ≡ joined_columns (columns_from bounds.old nulls.old) (row_columns values.now)) }
    ensures same_bounds { OnErr result (bounds.new ≡ bounds.old) }
    ensures same_nulls { OnErr result (nulls.new ≡ nulls.old) }
{
    let [value, more_values @ ..] = values else {
        return Ok(());
    };
    let (pair, more_bounds) = bounds.split_at_mut(2);
    let (has_null, more_nulls) = nulls.split_at_mut(1);
    let lower = new_low(alloc, &pair[0], value)?;
    let higher = new_high(alloc, &pair[1], value)?;
    add_values(alloc, more_bounds, more_nulls, more_values)?;
    replace(&mut pair[0], lower);
    replace(&mut pair[1], higher);
    has_null[0] |= is_null(value);
    Ok(())
}

// Puts a value in the place of a bound, if there is one.
fn replace(bound: &mut KeyVal, new: Option<KeyVal>)
    ensures { bound.new ≡ unwrap_or new bound.old }
{
    if let Some(value) = new {
        *bound = value;
    }
}

// Takes what other columns tell into these. Of the two bounds in each place the one that isn't kept
// goes where the other was.
fn join_columns(
    bounds: &mut [KeyVal],
    nulls: &mut [bool],
    other_bounds: &mut [KeyVal],
    other_nulls: &[bool],
)
    requires bounds { length bounds.old ≡ 2 * length other_nulls.now }
    requires nulls { length nulls.old ≡ length other_nulls.now }
    requires other_bounds { length other_bounds.old ≡ 2 * length other_nulls.now }
    ensures { columns_from bounds.new nulls.new
        ≡ joined_columns (columns_from bounds.old nulls.old)
        (columns_from other_bounds.old other_nulls.now) }
{
    let [other_null, more_other_nulls @ ..] = other_nulls else {
        return;
    };
    let (pair, more_bounds) = bounds.split_at_mut(2);
    let (other_pair, more_other_bounds) = other_bounds.split_at_mut(2);
    let (has_null, more_nulls) = nulls.split_at_mut(1);
    take_lesser(&mut pair[0], &mut other_pair[0]);
    take_greater(&mut pair[1], &mut other_pair[1]);
    has_null[0] |= *other_null;
    join_columns(more_bounds, more_nulls, more_other_bounds, more_other_nulls);
}
