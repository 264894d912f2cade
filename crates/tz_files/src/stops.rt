//! Why a command stops before it begins.

use tz_asm::AsmError;
use tz_board::{BoardError, ScriptError};
use tz_elf::ElfError;
use tz_snap::SnapError;

/// Why the files give no start: a file, by its name, or want of memory.
#[derive(Clone, Copy)]
pub enum LoadError<'a> {
    Unread(&'a str),
    Long(&'a str),
    Board(&'a str, BoardError),
    Image(&'a str, ElfError),
    State(&'a str, SnapError),
    Script(&'a str, ScriptError),
    Source(&'a str, AsmError),
    Memory,
}
