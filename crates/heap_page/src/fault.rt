/// What can be wrong with a heap page by itself.
#[derive(Clone, Copy, Debug, PartialEq, Eq)]
pub enum PageCause {
    /// The header isn't that of a heap page (`bufpage.h`).
    BadHeader,
    /// A line pointer leads to no tuple's place of its own, or a redirect to no line pointer.
    BadLine,
    /// A tuple's header doesn't fit the tuple or the table's number of columns.
    BadTuple,
    /// A tuple's hint bits don't say whether it is a row.
    Unsettled,
}

impl PageCause {
    ghost use Rattle.std.specs.Prelude.{◌≡◌};
    ghost use Rattle.heap_page.specs.Fault.{number_of_page_cause};

    /// The number by which the cause is told, from 1 to 4.
    pub fn number(self) -> u8
        ensures { result ≡ number_of_page_cause self }
    {
        match self {
            PageCause::BadHeader => 1,
            PageCause::BadLine => 2,
            PageCause::BadTuple => 3,
            PageCause::Unsettled => 4,
        }
    }
}

/// The least fault of a heap page: the item, told by its line pointer's number from 1, or 0 for the
/// page's header, and the cause's number.
#[derive(Clone, Copy, Debug, PartialEq, Eq)]
pub struct PageFault {
    pub item: u16,
    pub cause: u8,
}

impl PageFault {
    ghost use Rattle.std.specs.Prelude.{◌≡◌};
    ghost use Rattle.heap_page.specs.Fault.{number_of_page_cause};

    // The fault of an item.
    pub(crate) fn of(item: u16, cause: PageCause) -> PageFault
        ensures { result ≡ record { item = item; cause = number_of_page_cause cause } }
    {
        PageFault {
            item,
            cause: cause.number(),
        }
    }
}
