ghost use Rattle.std.specs.Prelude.{◌≡◌, [], ◌++◌, ◌+◌, ◌<◌, ◌≤◌, ◌^◌, OnOk, OnErr, drop, length, take};
ghost use Rattle.std.specs.List.{flat_map};
ghost use Rattle.opclass.specs.Norm.{piece};
ghost use Rattle.opclass.specs.Order.{unsaid};
ghost use Rattle.opclass.specs.Pass.{IsInFront};
ghost use Rattle.shared_tape.specs.Stored.{IsStorable, counted, extra_bytes, order_bytes, pointer_bytes, stored};

use byteorder::{ByteOrder, LittleEndian};
use opclass::{KeyList, SortPart, SortSpec, put_norm, put_piece};
use pg_bytes::RowPtr;
use std::alloc::{AllocError, Global};

/// A record of a sort: a row's values for the key columns and for the INCLUDE columns, and the row
/// that has them (`IndexTuple` and `SortTuple` of `tuplesort.h`).
#[derive(Debug, Drop)]
pub struct Record {
    pub keys: KeyList,
    pub extra: KeyList,
    pub ptr: RowPtr,
}

impl Record {
    /// A record without values, which takes no memory: one to be filled by `Run::read_into`.
    pub fn new(alloc: Global) -> Record
        ensures keys { result.keys ≡ [] }
        ensures extra { result.extra ≡ [] }
        ensures ptr { result.ptr ≡ record { block = 0; offset = 0 } }
    {
        Record {
            keys: KeyList::new(alloc),
            extra: KeyList::new(alloc),
            ptr: RowPtr {
                block: 0,
                offset: 0,
            },
        }
    }
}

/// The bytes of a length.
pub(crate) const LENGTH: usize = 4;

/// How a column is written that no order is said of.
pub(crate) const UNSAID: SortPart = SortPart {
    descending: false,
    nulls_first: false,
};

/// Puts a record's bytes behind those that a buffer has. On want of memory these stay in front, and
/// part of the record may stand behind them.
pub(crate) fn put_stored(
    out: &mut Vec<u8>,
    order: &SortSpec,
    row: &Record,
) -> Result<(), AllocError>
    requires { IsStorable order.now row.now }
    ensures ok { OnOk result (out.new.items ≡ out.old.items ++ stored order.now row.now) }
    ensures err { OnErr result (IsInFront out.old.items out.new.items) }
{
    put_order(out, order, row)?;
    put_extra(out, row)
}

// Puts the bytes by which a record is sorted behind their length.
fn put_order(out: &mut Vec<u8>, order: &SortSpec, row: &Record) -> Result<(), AllocError>
    requires { length (order_bytes order.now row.now) < 2 ^ 32 }
    ensures ok { OnOk result
        (out.new.items ≡ out.old.items ++ counted (order_bytes order.now row.now)) }
    ensures err { OnErr result (IsInFront out.old.items out.new.items) }
{
    let at = out.len();
    out.extend_from_slice(&[0; LENGTH])?;
    put_norm_and_pointer(out, order, row)?;
    count(out, at);
    Ok(())
}

// Puts the bytes of the values that no order is said of behind their length.
fn put_extra(out: &mut Vec<u8>, row: &Record) -> Result<(), AllocError>
    requires { length (extra_bytes row.now) < 2 ^ 32 }
    ensures ok { OnOk result (out.new.items ≡ out.old.items ++ counted (extra_bytes row.now)) }
    ensures err { OnErr result (IsInFront out.old.items out.new.items) }
{
    let at = out.len();
    out.extend_from_slice(&[0; LENGTH])?;
    put_pieces(out, row)?;
    count(out, at);
    Ok(())
}

#[tactic(auto, unfolding(crate::specs::Stored::order_bytes))]
fn put_norm_and_pointer(out: &mut Vec<u8>, order: &SortSpec, row: &Record) -> Result<(), AllocError>
    ensures ok { OnOk result (out.new.items ≡ out.old.items ++ order_bytes order.now row.now) }
    ensures err { OnErr result (IsInFront out.old.items out.new.items) }
{
    put_norm(out, order, &row.keys)?;
    put_pointer(out, row.ptr)
}

fn put_pointer(out: &mut Vec<u8>, ptr: RowPtr) -> Result<(), AllocError>
    ensures ok { OnOk result (out.new.items ≡ out.old.items ++ pointer_bytes ptr) }
    ensures err { OnErr result (IsInFront out.old.items out.new.items) }
{
    out.extend_from_slice(&ptr.block.to_be_bytes())?;
    out.extend_from_slice(&ptr.offset.to_be_bytes())
}

#[tactic(auto, unfolding(crate::specs::Stored::extra_bytes))]
fn put_pieces(out: &mut Vec<u8>, row: &Record) -> Result<(), AllocError>
    ensures ok { OnOk result (out.new.items ≡ out.old.items ++ extra_bytes row.now) }
    ensures err { OnErr result (IsInFront out.old.items out.new.items) }
{
    for value in row.extra.as_slice() {
        put_piece(out, UNSAID, value)?;
    }
    Ok(())
}

// Writes how many bytes stand behind the four at a place into these.
#[tactic(auto, unfolding(pg_bytes::specs::Numbers::number_bytes))]
fn count(bytes: &mut [u8], at: usize)
    requires within { at + 4 ≤ length bytes.old }
    requires fits { length (drop (at + 4) bytes.old) < 2 ^ 32 }
    ensures { bytes.new ≡ take at bytes.old ++ counted (drop (at + 4) bytes.old) }
{
    let length = bytes.len() - at - LENGTH;
    let mut field = [0u8; LENGTH];
    LittleEndian::write_u32(&mut field, length as u32);
    bytes[at..at + LENGTH].copy_from_slice(&field);
}
