// What is wrong with a text.
ghost use Rattle.std.specs.Prelude.{◌≡◌};
ghost use Rattle.srs_line.specs.Refusal.{slip_word};

use srs_num::NoMemory;
use std::alloc::{AllocError, AllocFailed};

/// What is wrong with a line.
#[derive(Clone, Copy, Debug, PartialEq, Eq)]
pub enum Slip {
    /// A line is wanted, and no LF is left.
    Missing,
    /// Another word, or another number of tokens.
    Word,
    /// A field is no number in its one spelling, or beyond 64 bits.
    Number,
    /// A version that isn't known.
    Version,
    /// A count out of its range, or that isn't the number of what it counts.
    Count,
    /// A number out of its range.
    Range,
    /// A number that isn't greater than the one before.
    Order,
    /// A vertex at which the polygon turns the wrong way.
    Turn,
    /// A byte follows the last line.
    Tail,
}

impl Slip {
    /// The word that a refusal prints.
    pub fn word(self) -> &'static [u8]
        ensures { result.now ≡ slip_word self }
    {
        match self {
            Slip::Missing => b"missing",
            Slip::Word => b"word",
            Slip::Number => b"number",
            Slip::Version => b"version",
            Slip::Count => b"count",
            Slip::Range => b"range",
            Slip::Order => b"order",
            Slip::Turn => b"turn",
            Slip::Tail => b"tail",
        }
    }
}

/// Why a text was refused.
#[derive(Clone, Copy, Debug, PartialEq, Eq)]
pub enum FileErr {
    /// The line of the first slip, counted from 1, and the slip.
    At(u32, Slip),
    /// Want of memory.
    NoMemory,
}

/// Why a line was refused.
#[derive(Clone, Copy, Debug, PartialEq, Eq)]
pub enum LineErr {
    /// The slip, and how many lines before the line at hand it stands: 0 for that very line.
    Slip(Slip, u64),
    /// Want of memory.
    NoMemory,
}

impl From<Slip> for LineErr {
    ghost use Rattle.std.specs.Prelude.{◌≡◌};
    ghost use Rattle.srs_line.specs.declared.slip.LineErr.TheVariants as lines;

    ghost from_gives = { λ slip e. e ≡ lines.Slip slip 0 };

    fn from(slip: Slip) -> LineErr {
        LineErr::Slip(slip, 0)
    }
}

impl From<NoMemory> for LineErr {
    ghost use Rattle.std.specs.Prelude.{◌≡◌};
    ghost use Rattle.srs_line.specs.declared.slip.LineErr.TheVariants as lines;

    ghost from_gives = { λ _ e. e ≡ lines.NoMemory };

    fn from(_: NoMemory) -> LineErr {
        LineErr::NoMemory
    }
}

impl From<AllocError> for LineErr {
    ghost use Rattle.std.specs.Prelude.{◌≡◌};
    ghost use Rattle.srs_line.specs.declared.slip.LineErr.TheVariants as lines;

    ghost from_gives = { λ _ e. e ≡ lines.NoMemory };

    fn from(_: AllocError) -> LineErr {
        LineErr::NoMemory
    }
}

impl<T: Drop> From<AllocFailed<T>> for LineErr {
    ghost use Rattle.std.specs.Prelude.{◌≡◌};
    ghost use Rattle.srs_line.specs.declared.slip.LineErr.TheVariants as lines;

    ghost from_gives = { λ _ e. e ≡ lines.NoMemory };

    fn from(_: AllocFailed<T>) -> LineErr {
        LineErr::NoMemory
    }
}

impl From<NoMemory> for FileErr {
    ghost use Rattle.std.specs.Prelude.{◌≡◌};
    ghost use Rattle.srs_line.specs.declared.slip.FileErr.TheVariants as files;

    ghost from_gives = { λ _ e. e ≡ files.NoMemory };

    fn from(_: NoMemory) -> FileErr {
        FileErr::NoMemory
    }
}
