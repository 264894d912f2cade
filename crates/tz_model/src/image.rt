//! Images: bytes with the addresses at which they are put before the machine starts.
//!
//! In an image no address has two bytes, none is past the last one of 32 bits, and there are no more bytes
//! than a board may have, which is 4 MiB. Which regions hold them is a fact of an image and a board together.

use std::marker::Model;

/// Bytes from an address on.
#[derive(Drop)]
pub struct Segment {
    pub base: u32,
    pub bytes: Vec<u8>,
}

impl Model for Segment {
    ghost use Rattle.tz_model.specs.Image.{SegmentValue};

    ghost Value = { SegmentValue };

    ghost view = { λ s. record { base = s.base; bytes = s.bytes.items } };
}

/// An image.
#[derive(Drop)]
pub struct Image {
    pub segments: Vec<Segment>,
}

impl Model for Image {
    ghost use Rattle.tz_model.specs.Image.{ImageValue, IsImage};

    ghost Value = { ImageValue };

    ghost view = { λ i. record { segments = i.segments.items } };

    ghost invariant = { λ i. IsImage i.segments.items };
}
