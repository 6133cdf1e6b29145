//! How an item of the heap becomes a row of an index.

ghost use Rattle.std.specs.Prelude.{◌≡◌, ◌<◌, ◌≤◌, [], ◌∷◌, ◌++◌, All, Contains, IfErr, IfOk, IfSome, OnOk, length, slice_get, take};
ghost use Rattle.pg_bytes.specs.PageLayout.{page_size};
ghost use Rattle.hot_chain.specs.Roots.{IsLive};
ghost use Rattle.opclass.specs.Norm.{IsKeyValue};
ghost use Rattle.build_leader.specs.Calls.{IsPlan};
ghost use Rattle.build_leader.specs.Holding.{Suits};
ghost use Rattle.build_leader.specs.IndexRow.{index_columns};
ghost use Rattle.build_leader.specs.Reader.{AreAt, AreNeededOrLeft, AreReadOrLeft, IsItemFault, IsReadOrLeft, IsSoundItem};

use crate::columns::kinds_of;
use crate::plan::Plan;
use crate::scan::refill::{copy_values, move_last, move_value};
use crate::scan::row_slot::RowSlot;
use crate::scan::sink::Sink;
use heap_page::View;
use heap_row::{RowFault, read_values_into};
use opclass::{Columns, IndexSpec, KeyList, Kinds, Table, keeps, needed};
use pg_bytes::RowPtr;
use std::alloc::{AllocError, Global};
use std::marker::Model;

/// What the rows of an index are read by, made once for a scan.
#[derive(Drop)]
pub(crate) struct RowReader<'a> {
    table: &'a Table,
    spec: &'a IndexSpec,
    needed: Columns,
    kinds: Kinds,
    /// Where each column of the index stands among the needed ones.
    places: Vec<usize>,
    /// Whether the columns of the index are the needed ones as they stand.
    as_needed: bool,
}

impl<'a> Model for RowReader<'a> {
    ghost use Rattle.build_leader.specs.Reader.{IsSoundReader, ReaderView};

    ghost Value = { ReaderView };

    ghost view = { λ reader. record { table = reader.table.now; spec = reader.spec.now } };

    ghost invariant = { IsSoundReader };
}

impl<'a> RowReader<'a> {
    /// The reader of a plan's index.
    pub fn of(alloc: Global, plan: &'a Plan) -> Result<RowReader<'a>, AllocError>
        requires { IsPlan plan.now }
        ensures { IfOk result (λ reader.
            reader ≡ record { table = plan.now.table; spec = plan.now.spec }) }
    {
        let needed = needed(alloc, &plan.spec)?;
        let columns = columns_of(alloc, &plan.spec)?;
        let places = places_of(alloc, needed.as_slice(), &columns)?;
        let as_needed = needed.as_slice() == columns.as_slice();
        Ok(RowReader {
            table: &plan.table,
            spec: &plan.spec,
            kinds: kinds_of(alloc, &plan.table, &plan.spec)?,
            needed,
            places,
            as_needed,
        })
    }

    /// How many columns the table has.
    pub fn columns(&self) -> u16
        ensures { result ≡ length self.now.table.columns }
    {
        self.table.columns.len() as u16
    }

    /// Reads the record of a live item into a slot, for a sink and with this pointer, and answers
    /// whether WHERE keeps the item: of one that it leaves out the slot tells nothing. A value that
    /// can't be read is a fault, and so are values that are too large for the index, which is asked
    /// of a row that WHERE keeps.
    pub fn read(
        &self,
        alloc: Global,
        view: &View,
        item: u16,
        ptr: RowPtr,
        sink: &Sink,
        slot: &mut RowSlot,
    ) -> Result<bool, RowFault>
        requires suits { Suits self.now.spec sink.now }
        requires live { IsLive view.now.bytes item }
        requires columns { view.now.columns ≡ length self.now.table.columns }
        requires size { length view.now.bytes ≡ page_size }
        ensures refused { IfErr result
            (IsItemFault self.now.table self.now.spec view.now.bytes item) }
        ensures sound { OnOk result
            (IsSoundItem self.now.table self.now.spec view.now.bytes item) }
        ensures record { IfOk result (λ kept.
            IsReadOrLeft self.now.table self.now.spec view.now.bytes item ptr
            kept slot.new.record) }
    {
        let RowSlot { values, record } = slot;
        // All columns are read as one list, in which each finds the memory of the row before.
        let extra = record.extra.len();
        move_last(&mut record.extra, extra, &mut record.keys)?;
        if !self.read_columns(alloc, view, item, sink, values, &mut record.keys)? {
            return Ok(false);
        }
        sink.check_width(alloc, &self.kinds, &record.keys)?;
        let includes = self.spec.includes.len();
        move_last(&mut record.keys, includes, &mut record.extra)?;
        record.ptr = ptr;
        Ok(true)
    }

    // Fills a list anew with the values of the index's columns, and answers whether WHERE keeps the
    // item. Where they aren't the needed ones as they stand, they are picked out of these.
    fn read_columns(
        &self,
        alloc: Global,
        view: &View,
        item: u16,
        sink: &Sink,
        values: &mut KeyList,
        picked: &mut KeyList,
    ) -> Result<bool, RowFault>
        requires suits { Suits self.now.spec sink.now }
        requires live { IsLive view.now.bytes item }
        requires columns { view.now.columns ≡ length self.now.table.columns }
        requires size { length view.now.bytes ≡ page_size }
        ensures refused { IfErr result
            (IsItemFault self.now.table self.now.spec view.now.bytes item) }
        ensures values { IfOk result (λ kept.
            AreReadOrLeft self.now.table self.now.spec view.now.bytes item kept picked.new) }
    {
        if self.as_needed {
            return self.read_needed(alloc, view, item, picked);
        }
        if !self.read_needed(alloc, view, item, values)? {
            return Ok(false);
        }
        if sink.takes_arrays() {
            move_value(values, self.places[0], picked)?;
        } else {
            copy_values(alloc, values, &self.places, picked)?;
        }
        Ok(true)
    }

    // Fills a list anew with the values of the needed columns, and answers whether WHERE keeps
    // them.
    fn read_needed(
        &self,
        alloc: Global,
        view: &View,
        item: u16,
        values: &mut KeyList,
    ) -> Result<bool, RowFault>
        requires live { IsLive view.now.bytes item }
        requires columns { view.now.columns ≡ length self.now.table.columns }
        requires size { length view.now.bytes ≡ page_size }
        ensures refused { IfErr result
            (IsItemFault self.now.table self.now.spec view.now.bytes item) }
        ensures values { IfOk result (λ kept.
            AreNeededOrLeft self.now.table self.now.spec view.now.bytes item kept values.new) }
    {
        read_values_into(alloc, view, item, self.table, &self.needed, values)?;
        Ok(keeps(&self.spec.filter, &self.needed, values))
    }
}

// The columns of an index, the keys first.
fn columns_of(alloc: Global, spec: &IndexSpec) -> Result<Vec<u16>, AllocError>
    ensures { IfOk result (λ columns. columns.items ≡ index_columns spec.now) }
{
    let mut columns: Vec<u16> = spec
        .keys
        .as_slice()
        .iter()
        .map(|key| key.column)
        .collect(alloc)?;
    columns.extend_from_slice(spec.includes.as_slice())?;
    Ok(columns)
}

// Where each of the columns stands among the needed ones.
fn places_of(alloc: Global, needed: &[u16], columns: &[u16]) -> Result<Vec<usize>, AllocError>
    requires { All (Contains needed.now) columns.now }
    ensures { IfOk result (λ places. AreAt needed.now places.items columns.now) }
{
    let mut places = Vec::with_capacity(alloc, columns.len())?;
    for column in columns {
        places.push_reserved(place_of(needed, *column));
    }
    Ok(places)
}

// Where a column stands among the needed ones.
fn place_of(needed: &[u16], column: u16) -> usize
    requires { Contains needed.now column }
    ensures { slice_get needed.now result ≡ Some column }
{
    match needed.iter().position(|number| *number == column) {
        Some(place) => place,
        None => unreachable!(),
    }
}
