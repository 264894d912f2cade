//! The text that disassembles an image: a line for each instruction, halfword or byte of its runs.
//!
//! `disassemble` writes exactly what the definition `dis_text` says: the maximal runs of bytes by their
//! addresses, and in each run a line for what stands at its front, then one for what stands behind that. It
//! takes no memory, and a line goes out as soon as it is read.
//!
//! A law stands beside it: that the runs are the maximal ones.

ghost use Rattle.std.specs.Prelude.{◌≡◌};
ghost use Rattle.tz_model.specs.Outside.{HasCause, Put};
ghost use Rattle.tz_text.specs.Maximal.{RunsAreMaximal};
ghost use Rattle.tz_text.specs.Text.{dis_text};

mod fronts;
mod lines;
mod order;
mod rest;

use crate::disassembly::lines::Line;
use crate::disassembly::order::ascending;
use crate::disassembly::rest::Rest;
use tz_model::{Image, Sink, SinkError};

/// Writes the lines of an image, each as one put. It takes the image, since it puts the segments in order.
///
/// A line that can't be written is the one error: the lines before it went out.
pub fn disassemble<O: Sink>(image: Image, out: &mut O) -> Result<(), SinkError>
    ensures put { Put (O.written out.old) (O.written out.new) (O.space out.old) (O.space out.new) (dis_text image) result }
    ensures cause { HasCause (O.faults out.old) (O.faults out.new) (result ≡ Err SinkError.Failed) }
{
    let segments = ascending(image);
    let mut rest = Rest::new(&segments);
    let mut line = Line::new();
    'lines: while rest.next(&mut line) {
        if let Err(error) = out.put(line.as_str().as_bytes()) {
            return Err(error);
        }
        line.clear();
    }
    Ok(())
}

/// The runs of an image are its maximal runs: they ascend, none begins where another ends, and together they
/// have the bytes of the image at their addresses, and no others.
pub fn runs_are_maximal()
    ensures { RunsAreMaximal }
{}
