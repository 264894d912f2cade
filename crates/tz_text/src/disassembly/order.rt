//! The segments of an image in the order of their addresses.

ghost use Rattle.std.specs.Prelude.{◌≡◌, IsTrue};
ghost use Rattle.tz_model.specs.Image.{are_addressed};
ghost use Rattle.tz_text.specs.Runs.{ascending, filled, has_bytes};

use tz_model::{Image, Segment};

/// Whether a segment has bytes.
fn has_bytes(segment: &Segment) -> bool
    ensures { result ≡ has_bytes segment.now }
{
    !segment.bytes.is_empty()
}

/// The first address of a segment.
fn base_of(segment: &Segment) -> u32
    ensures { result ≡ segment.now.base }
{
    segment.base
}

/// The segments that have bytes, ascending by address. They are put in order in place.
pub fn ascending(image: Image) -> Vec<Segment>
    ensures order { result.items ≡ ascending (filled image.segments) }
    ensures addressed { IsTrue (are_addressed result.items) }
{
    let mut segments = image.segments;
    segments.retain(|segment| has_bytes(segment));
    segments.sort_unstable_by_key(|segment| base_of(segment));
    segments
}
