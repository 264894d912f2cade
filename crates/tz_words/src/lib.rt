//! The words of the command line.
//!
//! What the words mean, and that all others are refused, is exactly what the definition `command_of`
//! says. Each command reads the words behind its own in a module of its own, and joins in `command` by its word.
//! `clap` reads them, but for those of `show`. Whether a named file is there, and whether a number is past its limit,
//! isn't known here.
#![tactic(auto)]

mod asm;
mod back;
mod command;
mod counts;
mod dis;
mod generated;
mod leaf;
mod pair;
mod ranges;
mod resume;
mod run;
mod show;
mod start;
mod views;

pub use asm::{AsmWords, Form};
pub use back::BackWords;
pub use command::{Command, command_words};
pub use dis::DisWords;
pub use generated::GenWords;
pub use pair::PairWords;
pub use ranges::Range;
pub use resume::ResumeWords;
pub use show::SavedWords;
pub use start::{StartWords, Work};
