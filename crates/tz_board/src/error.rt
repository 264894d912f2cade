//! Why a board file or a script is refused, and where. The text of an error is its code and its place.

ghost use Rattle.std.specs.Prelude.{◌≡◌};
ghost use Rattle.tz_board.specs.Boards.{key_at, key_text};
ghost use Rattle.tz_board.specs.BoardErrors.{key_of, place_of};

use std::fmt;
use thiserror::Error;

/// A key of a board file.
#[derive(Clone, Copy)]
pub enum Key {
    SecureVtor,
    NonsecureVtor,
    Interrupts,
    SauRegions,
    MpuSecure,
    MpuNonsecure,
    Profile,
    Mover,
    Region,
    Base,
    Size,
    Kind,
    Side,
    Sau,
    Limit,
    Nsc,
}

impl Key {
    /// The key as a board file writes it.
    pub fn text(self) -> &'static str
        ensures { result.now ≡ key_text (key_of self) }
    {
        match self {
            Key::SecureVtor => "secure_vtor",
            Key::NonsecureVtor => "nonsecure_vtor",
            Key::Interrupts => "interrupts",
            Key::SauRegions => "sau_regions",
            Key::MpuSecure => "mpu_secure",
            Key::MpuNonsecure => "mpu_nonsecure",
            Key::Profile => "profile",
            Key::Mover => "mover",
            Key::Region => "region",
            Key::Base => "base",
            Key::Size => "size",
            Key::Kind => "kind",
            Key::Side => "side",
            Key::Sau => "sau",
            Key::Limit => "limit",
            Key::Nsc => "nsc",
        }
    }
}

impl fmt::Display for Key {
    fn fmt<W: fmt::Write>(&self, f: &mut fmt::Formatter<W>) -> fmt::Result {
        f.write_str(self.text())
    }
}

/// Where a key stands: at the top of the file, or in the table of a region or of an SAU region, which
/// are counted from 0.
#[derive(Clone, Copy)]
pub enum Place {
    Top(Key),
    Region(u32, Key),
    Sau(u32, Key),
}

impl Place {
    /// The key that stands there.
    pub fn key(self) -> Key
        ensures { key_of result ≡ key_at (place_of self) }
    {
        match self {
            Place::Top(key) => key,
            Place::Region(_, key) => key,
            Place::Sau(_, key) => key,
        }
    }
}

impl fmt::Display for Place {
    fn fmt<W: fmt::Write>(&self, f: &mut fmt::Formatter<W>) -> fmt::Result {
        match self {
            Place::Top(key) => write!(f, "{key}"),
            Place::Region(index, key) => write!(f, "region {index} {key}"),
            Place::Sau(index, key) => write!(f, "sau {index} {key}"),
        }
    }
}

/// Why a board file is refused: the first reason in the order of the file's grammar.
#[derive(Clone, Copy, Drop, Error)]
pub enum BoardError {
    /// The bytes are no TOML document.
    #[error("B1")]
    NotToml,
    /// A required key is absent.
    #[error("B2 {0}")]
    Missing(Place),
    /// The value isn't of the kind that the key asks for.
    #[error("B3 {0}")]
    WrongKind(Place),
    /// The value is of that kind and out of range.
    #[error("B4 {0}")]
    Range(Place),
    /// Two regions share a byte: the least later one, with the least earlier one before it.
    #[error("B5 {0} {1}")]
    Overlap(u32, u32),
    /// More than 32 regions, more SAU regions than the board has, or more than 4 MiB of memory.
    #[error("B6")]
    TooMany,
    /// There is no memory for the board.
    #[error("no memory")]
    Memory,
}

/// The text, as it is displayed.
impl fmt::Debug for BoardError {
    fn fmt<W: fmt::Write>(&self, f: &mut fmt::Formatter<W>) -> fmt::Result {
        fmt::Display::fmt(self, f)
    }
}

/// Why a script is refused: the first reason by line, with the number of the line, counted from 1.
#[derive(Clone, Copy, Drop, Error)]
pub enum ScriptError {
    /// The line is no event, no comment and not empty.
    #[error("C1 {0}")]
    BadLine(u32),
    /// Its step is below that of the event before.
    #[error("C2 {0}")]
    OutOfOrder(u32),
    /// The board hasn't the interrupt.
    #[error("C3 {0}")]
    NoSuchInterrupt(u32),
    /// There are more than 10,000 events.
    #[error("C4")]
    TooMany,
    /// There is no memory for the script.
    #[error("no memory")]
    Memory,
}

/// The text, as it is displayed.
impl fmt::Debug for ScriptError {
    fn fmt<W: fmt::Write>(&self, f: &mut fmt::Formatter<W>) -> fmt::Result {
        fmt::Display::fmt(self, f)
    }
}
