ghost use Rattle.std.specs.Prelude.{◌≡◌, ◌↔◌, IfErr, IfOk, IsTrue};
ghost use Rattle.heap_page.specs.Fault.{HasBadHeader, IsLeastPageFault};
ghost use Rattle.heap_page.specs.Line.{IsNew, heap_line_count};

use crate::fault::{PageCause, PageFault};
use crate::layout::lines_of;
use crate::view::same_page;
use pg_bytes::{PAGE, PAGE_HEADER, PAGE_VERSION, PD_PAGESIZE_VERSION, Page, u16_at};

// The first number of `pd_flags` with a bit that stands for no flag (`PD_VALID_FLAG_BITS` + 1).
const FLAGS_END: u16 = 0x0008;

// A page that isn't new and whose header is good, with its number of line pointers and the number
// of columns of its table: what is known of a page while its items are checked.
#[derive(Drop)]
pub(crate) struct UsedPage<'a> {
    pub(crate) bytes: Page<'a>,
    pub(crate) columns: u16,
    pub(crate) lines: u16,
    ghost used: { IsNew bytes → ⊥ },
    ghost header: { HasBadHeader bytes → ⊥ },
    ghost counted: { lines ≡ heap_line_count bytes },
}

impl<'a> UsedPage<'a> {
    // The page with what is known of it, where its header is good.
    pub(crate) fn of(page: &Page<'a>, columns: u16) -> Result<UsedPage<'a>, PageFault>
        requires { IsNew page.now → ⊥ }
        ensures refused { IfErr result (IsLeastPageFault page.now columns) }
        ensures bytes { IfOk result (λ used. used.bytes ≡ page.now) }
        ensures columns { IfOk result (λ used. used.columns ≡ columns) }
    {
        if has_bad_header(page) {
            return Err(PageFault::of(0, PageCause::BadHeader));
        }
        Ok(UsedPage {
            bytes: same_page(page),
            columns,
            lines: lines_of(page),
        })
    }
}

// Whether the header isn't that of a heap page.
fn has_bad_header(page: &Page) -> bool
    ensures { IsTrue result ↔ HasBadHeader page.now }
{
    let lower = page.lower();
    let upper = page.upper();
    u16_at(page.bytes(), PD_PAGESIZE_VERSION) != PAGE_VERSION
        || FLAGS_END <= page.flags()
        || page.special() != PAGE as u16
        || lower < PAGE_HEADER as u16
        || upper < lower
        || (PAGE as u16) < upper
}
