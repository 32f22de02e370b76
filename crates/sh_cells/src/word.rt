//! A word of the shared memory, and the sides that it can lie on.
ghost use Rattle.std.specs.Prelude.{◌≡◌, ◌<◌, ◌^◌};
ghost use Rattle.sh_cells.specs.Words.{word_of, word_number, side_of, side_number};

/// Two bytes, and the stamp of the entry that they come from: 0 for the word that nothing wrote.
#[derive(Clone, Copy, Debug, PartialEq, Eq)]
pub struct Word {
    pub stamp: u64,
    pub bytes: [u8; 2],
}

/// A page has two sides. A page word says which one is present.
#[derive(Clone, Copy, Debug, PartialEq, Eq)]
pub enum Side {
    /// The kernel's side.
    First,
    /// The side of the user's area.
    Second,
}

/// Where the bytes of an entry come from.
#[derive(Clone, Copy, Debug, PartialEq, Eq)]
pub enum Kind {
    /// A driver clears memory.
    Zero,
    /// A daemon writes.
    Daemon,
    /// A driver hands over the bytes of this mapping.
    Handed { mapping: u64 },
}

impl Word {
    /// The number that a cell holds for the word: the stamp in the upper 48 bits, the bytes below.
    pub(crate) fn number(self) -> u64
        ensures exact { self.stamp < 2 ^ 48 → result ≡ word_number self }
        ensures back { self.stamp < 2 ^ 48 → word_of result ≡ self }
    {
        (self.stamp << 16) + u64::from(u16::from_le_bytes(self.bytes))
    }

    pub(crate) fn from_number(number: u64) -> Word
        ensures { result ≡ word_of number }
    {
        Word {
            stamp: number >> 16,
            bytes: ((number % 65536) as u16).to_le_bytes(),
        }
    }
}

impl Side {
    /// Of the two cells of an address, the first or the second.
    pub(crate) fn number(self) -> usize
        ensures { result ≡ side_number self }
    {
        match self {
            Side::First => 0,
            Side::Second => 1,
        }
    }

    /// The side that a page word of this number says, or none.
    pub(crate) fn from_page_word(number: u64) -> Option<Side>
        ensures { result ≡ side_of number }
    {
        match number {
            0 => None,
            1 => Some(Side::First),
            _ => Some(Side::Second),
        }
    }

    /// The number of the page word that says this.
    pub(crate) fn page_word(side: Option<Side>) -> u64
        ensures { side_of result ≡ side }
    {
        match side {
            None => 0,
            Some(Side::First) => 1,
            Some(Side::Second) => 2,
        }
    }
}
