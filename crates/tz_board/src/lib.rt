//! Boards and scripts: what the program reads beside images.
//!
//! What a file means and which refusal comes first is said by this crate's definitions; the readers answer
//! exactly the value or the refusal that those give. That bytes are TOML, or aren't,
//! is told by the crate toml.
#![tactic(auto)]

mod board;
mod demo;
mod error;
mod keys;
mod limits;
mod line;
mod script;
mod script_file;
mod tables;
mod text;

pub use board::read_board;
pub use demo::demo_board;
pub use error::{BoardError, Key, Place, ScriptError};
pub use script::Script;
pub use script_file::read_script;
