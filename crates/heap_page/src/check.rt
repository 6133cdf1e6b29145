ghost use Rattle.std.specs.Prelude.{◌≡◌, ◌+◌, IfErr, IfOk, OnOk};
ghost use Rattle.heap_page.specs.Fault.{IsLeastPageFault, IsSoundPage};
ghost use Rattle.heap_page.specs.Line.{IsLine};
ghost use Rattle.heap_page.specs.Pass.Faults.{IsFaultAt, IsSoundAt};
ghost use Rattle.heap_page.specs.Pass.Units.{IsMapBelow};
ghost use Rattle.heap_page.specs.Settled.{AllSettled};

use crate::fault::PageFault;
use crate::item::check_item;
use crate::layout::is_new;
use crate::units::Units;
use crate::used_page::UsedPage;
use crate::view::View;
use pg_bytes::Page;

/// Checks a heap page by itself, for a table with so many columns, and gives a view of it. It takes
/// no memory, and time linear in the page. Of a page with faults it tells the least: the least
/// item, and at that item the least cause. A new page (`PageIsNew` of `bufpage.h`, by `pd_upper`
/// alone) has no line pointers and no faults.
///
/// Of the header it asks what `PageIsVerified` of `bufpage.c` asks: that the flags are flags, and
/// that `pd_lower`, `pd_upper`, `pd_special` and the page's end stand in this order. Three checks
/// are this project's own, since they hold of each heap page: the word of the page's size and
/// layout version, a `pd_special` at the page's end, and a `pd_lower` that isn't inside the header.
/// The checksum isn't looked at. What is asked of line pointers and tuple headers is what any
/// reader of the page relies on (`itemid.h`, `htup_details.h`).
pub fn check_page<'a>(page: &Page<'a>, columns: u16) -> Result<View<'a>, PageFault>
    ensures refused { IfErr result (IsLeastPageFault page.now columns) }
    ensures bytes { IfOk result (λ view. view.bytes ≡ page.now) }
    ensures columns { IfOk result (λ view. view.columns ≡ columns) }
    ensures sound { OnOk result (IsSoundPage page.now columns) }
    ensures settled { IfOk result (λ view. AllSettled view.bytes) }
{
    if !is_new(page) {
        check_items(&UsedPage::of(page, columns)?)?;
    }
    Ok(View::of(page, columns))
}

// The least fault of the items of a page.
fn check_items(page: &UsedPage) -> Result<(), PageFault>
    ensures refused { IfErr result (IsLeastPageFault page.now.bytes page.now.columns) }
    ensures sound { OnOk result (IsSoundPage page.now.bytes page.now.columns) }
{
    let mut units = Units::new();
    for item in 1..page.lines + 1 {
        check_one(page, item, &mut units)?;
    }
    Ok(())
}

// The least fault of one item, told by its number.
fn check_one(page: &UsedPage, item: u16, units: &mut Units) -> Result<(), PageFault>
    requires line { IsLine page.now.bytes item }
    requires map { IsMapBelow page.now.bytes item units.old.marked }
    ensures refused { IfErr result (IsFaultAt page.now.bytes page.now.columns item) }
    ensures sound { OnOk result (IsSoundAt page.now.bytes page.now.columns item) }
    ensures map { OnOk result (IsMapBelow page.now.bytes (item + 1) units.new.marked) }
{
    check_item(page, item, units).map_err(|cause| PageFault::of(item, cause))
}
