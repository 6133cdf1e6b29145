ghost use Rattle.std.specs.Prelude.{◌≡◌, ◌↔◌, ◌<◌, ◌^◌, IsTrue};

use crate::PAGE;

/// What a line pointer says of itself (`LP_UNUSED` to `LP_DEAD` of `itemid.h`).
#[derive(Clone, Copy, Debug, PartialEq, Eq)]
pub enum LineState {
    Unused,
    Normal,
    Redirect,
    Dead,
}

/// A line pointer (`ItemIdData` of `itemid.h`): where an item of a page begins, its state from 0 to
/// 3, and its length, both in bytes. A redirect's offset is the number of the line pointer that it
/// leads to.
#[derive(Clone, Copy, Debug, PartialEq, Eq)]
pub struct LinePtr {
    pub offset: u16,
    pub state: u8,
    pub length: u16,
}

impl LinePtr {
    ghost use Rattle.pg_bytes.specs.Lines.{EndsInside};
    ghost use Rattle.pg_bytes.specs.Pointers.{line_pointer_of, number_of_state, word_of};

    /// The line pointer in a page's word: 15 bits of offset, 2 of state, 15 of length, the lowest
    /// first.
    pub fn of_word(word: u32) -> LinePtr
        ensures { result ≡ line_pointer_of word }
    {
        LinePtr {
            offset: (word % (1 << 15)) as u16,
            state: ((word >> 15) % 4) as u8,
            length: (word >> 17) as u16,
        }
    }

    /// The word that stands in the page for it.
    pub fn word(&self) -> u32
        requires offset { self.now.offset < 2 ^ 15 }
        requires state { self.now.state < 4 }
        requires length { self.now.length < 2 ^ 15 }
        ensures { result ≡ word_of self.now }
    {
        u32::from(self.offset)
            + u32::from(self.state) * (1 << 15)
            + u32::from(self.length) * (1 << 17)
    }

    /// The state by its name.
    pub fn kind(&self) -> LineState
        requires { self.now.state < 4 }
        ensures { number_of_state result ≡ self.now.state }
    {
        match self.state {
            0 => LineState::Unused,
            1 => LineState::Normal,
            2 => LineState::Redirect,
            _ => LineState::Dead,
        }
    }

    /// Whether its bytes end on the page.
    pub fn ends_inside(&self) -> bool
        ensures { IsTrue result ↔ EndsInside self.now }
    {
        usize::from(self.offset) + usize::from(self.length) <= PAGE
    }
}
