//! Files: what a command reads, and what is told where that stops it.
//!
//! `files` reads the files that words name, one behind another, each by the reader of its form; `lines` writes what stops
//! a command, and texts line by line. `shelf` stands over the system and tells no contents, since no proof knows what a
//! file holds. It is thin, and counts a fault where the system answers an error.
#![tactic(auto)]

mod files;
mod lines;
mod shelf;
mod stops;

pub use files::{
    Files, PairFiles, SavedFiles, load, load_assembled, load_listed, load_pair, load_saved,
    load_shown,
};
pub use lines::{put_lines, put_status, refuse, refuse_fault};
pub use shelf::{FileShelf, read_to_limit};
pub use stops::LoadError;
