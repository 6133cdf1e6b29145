ghost use Rattle.std.specs.Prelude.{◌≡◌, ◌+◌, ◌≤◌, false};
ghost use Rattle.pg_bytes.specs.PageLayout.{line_pointer_size};
ghost use Rattle.btree_pack.specs.Pass.Joining.{fill_breaks};

use pg_bytes::{LINE_POINTER, PAGE};

// What a page has for its tuples and line pointers, where those of the high key and of one tuple
// more are set aside.
const ROOM: usize = 8144;

/// What an arriving tuple leaves on a leaf: the row pointer that its high key may have.
pub const SPARE: usize = 8;

// How full pages above the leaves are packed, in hundredths (`BTREE_NONLEAF_FILLFACTOR`).
const INNER_FILL: usize = 70;

/// How full a page is: whether it has one tuple alone, what its tuples take with their line
/// pointers, and how much of the last one is its list of row pointers.
#[derive(Clone, Copy, Debug)]
pub struct PageFill {
    pub level: u32,
    pub alone: bool,
    pub taken: usize,
    pub extra: usize,
}

impl PageFill {
    /// Whether a tuple of this size breaks the page: it has no room there, or enough is taken as
    /// the fill factor goes (`_bt_buildadd` of `nbtsort.c`).
    pub fn breaks(&self, fillfactor: u8, size: usize) -> bool
        requires size { size ≤ 2712 }
        requires taken { self.now.taken ≤ 8192 }
        requires extra { self.now.extra ≤ 8192 }
        ensures { result ≡ fill_breaks fillfactor self.now size }
    {
        if self.alone {
            return false;
        }
        let (spare, fill) = if self.level == 0 {
            (SPARE, usize::from(fillfactor))
        } else {
            (0, INNER_FILL)
        };
        let soft = PAGE * 100usize.saturating_sub(fill) / 100;
        ROOM < self.taken + (size + spare) || ROOM + self.extra < self.taken + soft
    }

    /// How full the page is with a tuple of this size more.
    pub fn with(&self, size: usize, extra: usize) -> PageFill
        requires size { size ≤ 2712 }
        requires taken { self.now.taken ≤ 8192 }
        ensures { result ≡ record self.now {
          alone = false;
          taken = self.now.taken + (size + line_pointer_size);
          extra = extra;
        } }
    {
        PageFill {
            level: self.level,
            alone: false,
            taken: self.taken + (size + LINE_POINTER),
            extra,
        }
    }
}
