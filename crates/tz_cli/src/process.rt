//! The top call over the system: what `main` is.
//!
//! Standard output is kept in a buffer, which is passed on before the program ends. It stands here, so that `main` is
//! one call.

use crate::output::OutSink;
use crate::program::top;
use std::alloc::AllocError;
use std::env::{self, Env};
use std::io::{ErrorKind, Write};
use std::process::ExitCode;
use std::rt::Files;
use tz_files::FileShelf;
use tz_model::Sink;

/// How many bytes of standard output are kept before they go out.
const BUFFER: usize = 65_536;

/// The words of the command line. Where one is no text there are none, and so they are refused.
fn read_words(rt: &(impl Env + AllocGlobal)) -> Result<Vec<String>, AllocError> {
    let mut words = Vec::new(rt.alloc());
    match env::args(rt) {
        Ok(args) => {
            for word in args {
                words.push(word)?;
            }
        }
        Err(error) => {
            if error.kind() == ErrorKind::OutOfMemory {
                return Err(AllocError);
            }
        }
    }
    Ok(words)
}

/// Does what the words of the command line say, over the files of the system and two streams, and gives the exit status:
/// that of `top`, 7 where no memory is found for the words or to gather standard output in, or 4 where the last of standard
/// output can't be passed on.
pub fn run_process<R: Env + Files + AllocGlobal, O: Write + Drop, E: Write + Drop>(
    rt: &R,
    stdout: O,
    stderr: E,
) -> ExitCode {
    let alloc = rt.alloc();
    let mut err = OutSink::new(stderr, Vec::new(alloc));
    let (Ok(words), Ok(buffer)) = (read_words(rt), Vec::from_elem(alloc, 0, BUFFER)) else {
        let _ = err.put(b"no memory\n");
        return ExitCode::from(7);
    };
    let mut out = OutSink::new(stdout, buffer);
    let mut shelf = FileShelf::new(rt);
    let status = top(alloc, &words, &mut shelf, &mut out, &mut err);
    if out.flush() {
        ExitCode::from(status)
    } else {
        ExitCode::from(4)
    }
}
