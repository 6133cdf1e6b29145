ghost use Rattle.std.specs.Prelude.{◌≡◌, ◌↔◌, ◌⊎◌, ◌+◌, ◌-◌, ◌/◌, ◌<◌, IsTrue, IfErr, OnOk};
ghost use Rattle.pg_bytes.specs.Lines.{line_at};
ghost use Rattle.heap_page.specs.Fault.{IsMisplaced, IsOutOfPlace, IsUnfit};
ghost use Rattle.heap_page.specs.Layout.{alignment};
ghost use Rattle.heap_page.specs.Line.{IsLine, IsNormal};
ghost use Rattle.heap_page.specs.Pass.Faults.{IsLeastCause, IsSoundAt};
ghost use Rattle.heap_page.specs.Pass.Units.{IsMapBelow};

use crate::fault::PageCause;
use crate::header::Header;
use crate::layout::{ALIGNMENT, LEAST_HEADER, NULL_BITMAP, header_at};
use crate::units::Units;
use crate::used_page::UsedPage;
use pg_bytes::{LinePtr, LineState, Page};

// The least cause of an item's faults. The units of a faultless item are marked.
pub(crate) fn check_item(page: &UsedPage, item: u16, units: &mut Units) -> Result<(), PageCause>
    requires line { IsLine page.now.bytes item }
    requires map { IsMapBelow page.now.bytes item units.old.marked }
    ensures refused { IfErr result (IsLeastCause page.now.bytes page.now.columns item) }
    ensures sound { OnOk result (IsSoundAt page.now.bytes page.now.columns item) }
    ensures map { OnOk result (IsMapBelow page.now.bytes (item + 1) units.new.marked) }
{
    let line = page.bytes.line(item);
    match line.kind() {
        LineState::Normal => check_normal(page, item, line, units),
        LineState::Redirect if is_astray(line, page.lines) => Err(PageCause::BadLine),
        _ => Ok(()),
    }
}

// Whether a redirect leads to no line pointer of the page.
fn is_astray(line: LinePtr, lines: u16) -> bool
    ensures { IsTrue result ↔ ((line.offset ≡ 0) ⊎ (lines < line.offset)) }
{
    line.offset == 0 || lines < line.offset
}

// The least cause of a normal item's faults. A faultless item's units are marked.
fn check_normal(
    page: &UsedPage,
    item: u16,
    line: LinePtr,
    units: &mut Units,
) -> Result<(), PageCause>
    requires normal { IsNormal page.now.bytes item }
    requires line { line ≡ line_at page.now.bytes item }
    requires map { IsMapBelow page.now.bytes item units.old.marked }
    ensures refused { IfErr result (IsLeastCause page.now.bytes page.now.columns item) }
    ensures sound { OnOk result (IsSoundAt page.now.bytes page.now.columns item) }
    ensures map { OnOk result (IsMapBelow page.now.bytes (item + 1) units.new.marked) }
{
    if is_misplaced(&page.bytes, item, line, units) {
        return Err(PageCause::BadLine);
    }
    let header = header_at(&page.bytes, usize::from(line.offset));
    if is_unfit(&header, line.length, page.columns) {
        return Err(PageCause::BadTuple);
    }
    if !header.is_settled() {
        return Err(PageCause::Unsettled);
    }
    let (first, end) = units_of(line);
    units.mark(first, end);
    Ok(())
}

// Whether a normal line pointer leads to no tuple's place of its own.
fn is_misplaced(page: &Page, item: u16, line: LinePtr, units: &Units) -> bool
    requires line { line ≡ line_at page.now item }
    requires map { IsMapBelow page.now item units.now.marked }
    ensures { IsTrue result ↔ IsMisplaced page.now item }
{
    if is_out_of_place(page, line) {
        return true;
    }
    let (first, end) = units_of(line);
    !units.is_free(first, end)
}

// Whether a line pointer leads to no aligned place for a tuple from the page's upper bound on.
fn is_out_of_place(page: &Page, line: LinePtr) -> bool
    ensures { IsTrue result ↔ IsOutOfPlace page.now line }
{
    line.offset % ALIGNMENT != 0
        || line.offset < page.upper()
        || !line.ends_inside()
        || line.length < u16::from(LEAST_HEADER)
}

// The units that an item has a part in, from one to before another.
fn units_of(line: LinePtr) -> (usize, usize)
    ensures first { result.0 ≡ line.offset / alignment }
    ensures end { result.1 ≡ (line.offset + line.length + (alignment - 1)) / alignment }
{
    let offset = usize::from(line.offset);
    let unit = usize::from(ALIGNMENT);
    (
        offset / unit,
        (offset + usize::from(line.length) + (unit - 1)) / unit,
    )
}

// Whether a tuple's header doesn't fit its length or the number of columns.
fn is_unfit(header: &Header, length: u16, columns: u16) -> bool
    ensures { IsTrue result ↔ IsUnfit header.now length columns }
{
    let attributes = header.infomask2_bits().attributes();
    let end = u16::from(header.hoff);
    end < u16::from(LEAST_HEADER)
        || end % ALIGNMENT != 0
        || length < end
        || columns < attributes
        || header.infomask_bits().has_nulls() && end < NULL_BITMAP + (attributes + 7) / 8
}
