//! The segments of an image, of which the last one still grows.

ghost use Rattle.std.specs.Prelude.{◌≡◌, ◌<◌, ◌^◌, IfOk, OnOk, [], length};
ghost use Rattle.tz_asm.specs.Growing.{finished, growing_view, grown, nothing};

use std::alloc::{AllocError, Global};
use std::mem;
use tz_model::Segment;

/// The segments that have their bytes, and one that grows, if it has any bytes.
#[derive(Drop)]
pub struct Growing {
    done: Vec<Segment>,
    base: u32,
    bytes: Vec<u8>,
}

impl Growing {
    /// No segments.
    pub fn nothing(alloc: Global) -> Growing
        ensures { growing_view result ≡ nothing }
    {
        Growing {
            done: Vec::new(alloc),
            base: 0,
            bytes: Vec::new(alloc),
        }
    }

    /// Counts the segment that grows among those that have their bytes. It grows no more.
    fn finish(&mut self, alloc: Global) -> Result<(), AllocError>
        ensures { OnOk result (self.new.done.items ≡ finished (growing_view self.old)) }
    {
        if !self.bytes.is_empty() {
            let bytes = mem::replace(&mut self.bytes, Vec::new(alloc));
            self.done.push(Segment {
                base: self.base,
                bytes,
            })?;
        }
        Ok(())
    }

    /// Puts bytes from a place on, in the segment that grows where the place is inside it, else in a new one.
    pub fn grow(
        &mut self,
        alloc: Global,
        inside: bool,
        place: u64,
        bytes: &[u8],
    ) -> Result<(), AllocError>
        requires { 0 < length bytes.now → place < 2 ^ 32 }
        ensures { OnOk result (growing_view self.new ≡ grown inside place bytes.now (growing_view self.old)) }
    {
        if bytes.is_empty() {
            return Ok(());
        }
        if !inside {
            self.finish(alloc)?;
            self.base = place as u32;
            self.bytes.clear();
        }
        self.bytes.extend_from_slice(bytes)?;
        Ok(())
    }

    /// The segments that the lines have filled, the last one finished.
    pub fn segments(mut self, alloc: Global) -> Result<Vec<Segment>, AllocError>
        ensures { IfOk result (λ v. v.items ≡ finished (growing_view self)) }
    {
        self.finish(alloc)?;
        let Growing {
            done,
            base: _,
            bytes: _,
        } = self;
        Ok(done)
    }
}
