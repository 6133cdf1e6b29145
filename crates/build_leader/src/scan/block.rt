//! The rows of an index in one block of the heap (`heapam_index_build_range_scan` of
//! `heapam_handler.c`).

ghost use Rattle.std.specs.Prelude.{◌≡◌, ◌<◌, ◌≤◌, ◌^◌, IfErr, IfOk, OnOk, length};
ghost use Rattle.pg_bytes.specs.PageLayout.{page_size};
ghost use Rattle.heap_page.specs.Fault.{IsSoundPage};
ghost use Rattle.heap_page.specs.Settled.{AllSettled};
ghost use Rattle.hot_chain.specs.Roots.{AreRows, HasSoundChains, IsLive};
ghost use Rattle.build_leader.specs.HeapRows.{HasSoundItems, IsSoundBlock};
ghost use Rattle.build_leader.specs.Holding.{StaysSuited, Suits};
ghost use Rattle.build_leader.specs.Reader.{IsSoundItem};
ghost use Rattle.build_leader.specs.Scanning.{IsPageError, IsRowError, TakesPage, TakesRow, TakesRows, error_of_chains};

use crate::scan::row_reader::RowReader;
use crate::scan::row_slot::RowSlot;
use crate::scan::sink::Sink;
use heap_page::{PageFault, View, check_page};
use heap_row::RowFault;
use hot_chain::{RootFault, Roots, find_roots};
use pg_bytes::{Page, RowPtr};
use std::alloc::Global;

/// Why a block's rows weren't taken: its fault, by the item and the number of the cause, or want of
/// memory. Item 0 stands for the page.
#[derive(Clone, Copy)]
pub(crate) enum BlockError {
    Fault { item: u16, cause: u8 },
    Memory,
}

/// Puts the rows of the index in a block's page into a sink, by ascending item, and answers how
/// many they are. A page with a fault is refused with its least one, and then some of its rows may
/// be in the sink.
pub(crate) fn scan_block(
    alloc: Global,
    reader: &RowReader,
    page: &Page,
    block: u32,
    sink: &mut Sink,
    slot: &mut RowSlot,
) -> Result<u64, BlockError>
    requires suits { Suits reader.now.spec sink.old }
    ensures refused { IfErr result (IsPageError reader.now.table reader.now.spec page.now) }
    ensures sound { OnOk result (IsSoundBlock reader.now.table reader.now.spec page.now) }
    ensures rows { IfOk result (λ count.
        TakesPage reader.now.table reader.now.spec page.now block sink.old count sink.new) }
    ensures few { IfOk result (λ count. count < 2 ^ 16) }
    ensures same { StaysSuited sink.old sink.new }
{
    let view = view_of(reader, page)?;
    let roots = roots_of(alloc, reader, &view)?;
    add_rows(alloc, reader, &view, &roots, block, sink, slot)
}

// The view of a page that has no fault by itself.
fn view_of<'a>(reader: &RowReader, page: &Page<'a>) -> Result<View<'a>, BlockError>
    ensures refused { IfErr result (IsPageError reader.now.table reader.now.spec page.now) }
    ensures bytes { IfOk result (λ view. view.bytes ≡ page.now) }
    ensures size { IfOk result (λ view. length view.bytes ≡ page_size) }
    ensures columns { IfOk result (λ view. view.columns ≡ length reader.now.table.columns) }
    ensures sound { OnOk result (IsSoundPage page.now (length reader.now.table.columns)) }
    ensures settled { IfOk result (λ view. AllSettled view.bytes) }
{
    let _bytes = page.bytes();
    check_page(page, reader.columns()).map_err(|fault| of_page(fault))
}

fn of_page(fault: PageFault) -> BlockError
    ensures { result ≡ BlockError.Fault fault.item fault.cause }
{
    BlockError::Fault {
        item: fault.item,
        cause: fault.cause,
    }
}

// The rows of a page with their roots.
fn roots_of(alloc: Global, reader: &RowReader, view: &View) -> Result<Roots, BlockError>
    requires sound { IsSoundPage view.now.bytes (length reader.now.table.columns) }
    requires settled { AllSettled view.now.bytes }
    ensures refused { IfErr result (IsPageError reader.now.table reader.now.spec view.now.bytes) }
    ensures rows { IfOk result (AreRows view.now.bytes) }
    ensures sound { OnOk result (HasSoundChains view.now.bytes) }
{
    find_roots(alloc, view).map_err(|fault| of_chains(fault))
}

fn of_chains(fault: RootFault) -> BlockError
    ensures { result ≡ error_of_chains fault }
{
    match fault {
        RootFault::Item { item, cause } => BlockError::Fault { item, cause },
        RootFault::Memory => BlockError::Memory,
    }
}

// Puts what rows of a page are in the index into a sink, and answers how many they are.
fn add_rows(
    alloc: Global,
    reader: &RowReader,
    view: &View,
    roots: &Roots,
    block: u32,
    sink: &mut Sink,
    slot: &mut RowSlot,
) -> Result<u64, BlockError>
    requires columns { view.now.columns ≡ length reader.now.table.columns }
    requires size { length view.now.bytes ≡ page_size }
    requires sound { IsSoundPage view.now.bytes (length reader.now.table.columns) }
    requires chains { HasSoundChains view.now.bytes }
    requires rows { AreRows view.now.bytes roots.now }
    requires suits { Suits reader.now.spec sink.old }
    ensures refused { IfErr result (IsPageError reader.now.table reader.now.spec view.now.bytes) }
    ensures sound { OnOk result
        (HasSoundItems reader.now.table reader.now.spec view.now.bytes) }
    ensures rows { IfOk result (λ count.
        TakesRows reader.now.table reader.now.spec view.now.bytes block roots.now
        sink.old count sink.new) }
    ensures few { IfOk result (λ count. count < 2 ^ 16) }
    ensures same { StaysSuited sink.old sink.new }
{
    let mut count = 0;
    for i in 0..roots.rows() {
        let ptr = RowPtr {
            block,
            offset: roots.root(i),
        };
        if add_row(alloc, reader, view, roots.item(i), ptr, sink, slot)? {
            count += 1;
        }
    }
    Ok(count)
}

// Puts a row of a page, with this pointer, into a sink, unless WHERE leaves it out, and answers
// whether it was put.
fn add_row(
    alloc: Global,
    reader: &RowReader,
    view: &View,
    item: u16,
    ptr: RowPtr,
    sink: &mut Sink,
    slot: &mut RowSlot,
) -> Result<bool, BlockError>
    requires live { IsLive view.now.bytes item }
    requires columns { view.now.columns ≡ length reader.now.table.columns }
    requires size { length view.now.bytes ≡ page_size }
    requires suits { Suits reader.now.spec sink.old }
    ensures refused { IfErr result
        (IsRowError reader.now.table reader.now.spec view.now.bytes item) }
    ensures sound { OnOk result
        (IsSoundItem reader.now.table reader.now.spec view.now.bytes item) }
    ensures row { IfOk result (λ put.
        TakesRow reader.now.table reader.now.spec view.now.bytes ptr.block
        (record { item = item; root = ptr.offset }) sink.old put sink.new) }
    ensures same { StaysSuited sink.old sink.new }
{
    match reader.read(alloc, view, item, ptr, sink, slot) {
        Ok(true) => match sink.put(&slot.record) {
            Ok(()) => Ok(true),
            Err(_) => Err(BlockError::Memory),
        },
        Ok(false) => Ok(false),
        Err(RowFault::Value { cause }) => Err(BlockError::Fault { item, cause }),
        Err(RowFault::Memory) => Err(BlockError::Memory),
    }
}
