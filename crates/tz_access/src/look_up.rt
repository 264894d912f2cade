//! Look-ups: what the units say of a block of 32 bytes to who asks, and the places that keep them: 16 of blocks as data,
//! and 16 of blocks as code. A block has one place of each.

ghost use Rattle.std.specs.Prelude.{◌≡◌, ◌%◌, ◌<◌, ◌≤◌, true, false, None, Some, IfSome, slice_index_or};
ghost use Rattle.tz_access.specs.Keys.{bit_if, is_nonsecure, side_if, key_of, who_of};
ghost use Rattle.tz_access.specs.Places.{none_kept, places_for, kept_at, with_look_up, found_in, IsHeld};
ghost use Rattle.tz_access.specs.Permitted.{permitted_by};

use tz_model::Side;
use tz_mpu::Permitted;
use tz_state::Kind;

/// How many places there are, of data and of code each.
const PLACES: usize = 16;

/// Who asks for a byte: whether for code to run or for data, the side, its privilege, and whether the execution
/// priority is below 0.
#[derive(Clone, Copy)]
pub(crate) struct Who {
    pub(crate) fetch: bool,
    pub(crate) side: Side,
    pub(crate) privileged: bool,
    pub(crate) negative: bool,
}

/// What the units say of a block.
#[derive(Clone, Copy)]
pub(crate) struct LookUp {
    /// The address of each of its bytes, divided by 32.
    pub(crate) block: u32,
    /// Who asks, as one number.
    pub(crate) key: u8,
    /// Attribution lets who asks have the block.
    pub(crate) admitted: bool,
    /// What the MPU of the side that asks permits.
    pub(crate) permitted: Permitted,
}

/// The places: those of blocks as data, and those of blocks as code, since code stands beside its literals.
#[derive(Drop)]
pub(crate) struct LookUps {
    data_places: [Option<LookUp>; PLACES],
    code_places: [Option<LookUp>; PLACES],
}

/// Whether an access of a kind is permitted.
#[inline(always)]
pub(crate) fn permits(permitted: Permitted, kind: Kind) -> bool
    ensures { result ≡ permitted_by kind permitted }
{
    match kind {
        Kind::Read => permitted.read,
        Kind::Write => permitted.write,
        Kind::Fetch => permitted.execute,
    }
}

/// A flag as a bit of a number.
#[inline(always)]
fn bit_if(on: bool, bit: u8) -> u8
    ensures value { result ≡ bit_if on bit }
    ensures fits { result ≤ bit }
{
    if on { bit } else { 0 }
}

/// Whether a side is Non-secure.
#[inline(always)]
fn is_nonsecure(side: Side) -> bool
    ensures { result ≡ is_nonsecure side }
{
    match side {
        Side::Secure => false,
        Side::NonSecure => true,
    }
}

/// The side that is Non-secure, or the one that isn't.
fn side_if(nonsecure: bool) -> Side
    ensures { result ≡ side_if nonsecure }
{
    if nonsecure {
        Side::NonSecure
    } else {
        Side::Secure
    }
}

/// Who asks, as one number, so that one comparison tells whether the same asks.
#[tactic(auto, unfolding(crate::specs::Keys::key_of))]
#[inline(always)]
pub(crate) fn key_of(who: Who) -> u8
    ensures { result ≡ key_of who }
{
    bit_if(who.fetch, 1)
        + bit_if(is_nonsecure(who.side), 2)
        + bit_if(who.privileged, 4)
        + bit_if(who.negative, 8)
}

/// Who asks, by the number of that.
#[tactic(auto, unfolding(crate::specs::Keys::who_of))]
pub(crate) fn who_of(key: u8) -> Who
    ensures { result ≡ who_of key }
{
    Who {
        fetch: key % 2 == 1,
        side: side_if(key / 2 % 2 == 1),
        privileged: key / 4 % 2 == 1,
        negative: key / 8 % 2 == 1,
    }
}

/// The place of a block.
fn place_of(block: u32) -> usize
    ensures place { result ≡ block % 16 }
    ensures is_there { result < 16 }
{
    block as usize % PLACES
}

impl LookUps {
    /// Places that keep nothing.
    pub(crate) fn new() -> LookUps
        ensures { result ≡ none_kept }
    {
        LookUps {
            data_places: [None; PLACES],
            code_places: [None; PLACES],
        }
    }

    /// What is kept at a place, of a block as code or as data.
    #[inline(always)]
    fn held(&self, fetch: bool, index: usize) -> Option<LookUp>
        requires { index < 16 }
        ensures { result ≡ slice_index_or (places_for fetch self.now) index None }
    {
        if fetch {
            self.code_places[index]
        } else {
            self.data_places[index]
        }
    }

    /// What is kept at a place of a block as data, or else as code.
    #[tactic(auto, using(crate::proofs::LookUps::none_past))]
    pub(crate) fn at(&self, index: usize) -> Option<LookUp>
        ensures found { result ≡ kept_at self.now index }
        ensures past { 16 ≤ index → result ≡ None }
    {
        if index >= PLACES {
            return None;
        }
        match self.held(false, index) {
            Some(found) => Some(found),
            None => self.held(true, index),
        }
    }

    /// What is kept of a block for who asks.
    #[tactic(auto, using(crate::proofs::LookUps::who_by_key))]
    #[inline(always)]
    pub(crate) fn find(&self, block: u32, who: Who) -> Option<LookUp>
        ensures held { IfSome result (λ k. IsHeld self.now who block k) }
        ensures found { result ≡ found_in self.now who block }
    {
        match self.held(who.fetch, place_of(block)) {
            None => None,
            Some(found) => {
                if found.block == block && found.key == key_of(who) {
                    Some(found)
                } else {
                    None
                }
            }
        }
    }

    /// Keeps nothing more, where what look-ups are made of has changed.
    pub(crate) fn empty_where(&mut self, changed: bool)
        ensures emptied { changed ≡ true → self.new ≡ none_kept }
        ensures left { changed ≡ false → self.new ≡ self.old }
    {
        if changed {
            self.data_places = [None; PLACES];
            self.code_places = [None; PLACES];
        }
    }

    /// Keeps a look-up, of a block as code or as data, at the place of its block, in place of what is there.
    pub(crate) fn keep(&mut self, look_up: LookUp, fetch: bool)
        ensures places { self.new ≡ with_look_up fetch self.old look_up }
        ensures held { slice_index_or (places_for fetch self.new) (look_up.block % 16) None ≡ Some look_up }
    {
        let index = place_of(look_up.block);
        if fetch {
            self.code_places[index] = Some(look_up);
        } else {
            self.data_places[index] = Some(look_up);
        }
    }
}
