//! The registers that a list names.

ghost use Rattle.std.specs.Prelude.{◌≡◌, ◌≤◌, length, filter};
ghost use Rattle.arrayvec.specs.ArrayVec.{array_vec_len};
ghost use Rattle.tz_sem.specs.LoadStore.{is_listed, listed};

use arrayvec::ArrayVec;

/// The registers that a list may name beside PC: R0 to R12 and LR.
static GENERAL: [u8; 14] = [0, 1, 2, 3, 4, 5, 6, 7, 8, 9, 10, 11, 12, 14];

/// Whether a list, a bit for each of R0 to PC, names a register by its number.
#[tactic(auto, using(crate::proofs::Listing::unlisted))]
pub fn is_listed(list: u16, index: u8) -> bool
    ensures { result ≡ is_listed list index }
{
    match list.checked_shr(u32::from(index)) {
        Some(from) => from % 2 == 1,
        None => false,
    }
}

/// The registers that a list names among some.
#[tactic(auto, using(std::proofs::lemmas::List::Elements::filter_more))]
fn listed_among(list: u16, some: &[u8]) -> ArrayVec<u8, 14>
    requires { length some.now ≤ 14 }
    ensures items { result.items ≡ filter (is_listed list) some.now }
    ensures few { array_vec_len result ≤ 14 }
{
    let mut registers = ArrayVec::new();
    for index in some {
        if is_listed(list, *index) {
            registers.push(*index);
        }
    }
    registers
}

/// The numbers of the registers that a list names, the lowest first, without SP and PC.
#[tactic(auto, unfolding(tz_sem::specs::LoadStore::listed))]
pub fn listed(list: u16) -> ArrayVec<u8, 14>
    ensures items { result.items ≡ listed list }
    ensures few { array_vec_len result ≤ 14 }
{
    listed_among(list, &GENERAL)
}
