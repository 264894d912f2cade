//! The masks of both sides, and the priority that each one that is set counts as.

ghost use Rattle.std.specs.Prelude.{◌≡◌, ◌≤◌, ◌+◌, ◌++◌, length};
ghost use Rattle.arrayvec.specs.ArrayString.{array_string_len};
ghost use Rattle.tz_show.specs.Masks.{mask_row, primask_row, basepri_row, faultmask_row, side_masks_text, masks_text};

use crate::rows::{Text, push_cell, push_signed};
use tz_model::Side;
use tz_nvic::Exceptions;
use tz_prio::{basepri_priority, faultmask_priority, primask_priority};
use tz_regs::{Masks, SideMasks};
use tz_state::exception::ZERO_PRIORITY;

/// A mask, and what it counts as where it is set.
#[tactic(auto, unfolding(crate::specs::Masks::mask_row))]
fn push_mask(text: &mut Text, head: &str, value: u32, priority: u32)
    requires small { priority ≤ 260 }
    requires room { array_string_len text.old + length head.now + 31 ≤ 48000 }
    ensures bytes { text.new.bytes ≡ text.old.bytes ++ mask_row head.now value priority }
    ensures len { array_string_len text.new ≤ array_string_len text.old + length head.now + 31 }
{
    push_cell(text, head, value);
    if value != 0 {
        text.push_str(" counts as ");
        push_signed(text, priority as i32 - ZERO_PRIORITY as i32);
    }
    text.push_str("\n");
}

#[tactic(auto, unfolding(crate::specs::Masks::primask_row))]
fn push_primask(text: &mut Text, exceptions: &Exceptions, side: Side, set: bool, head: &str)
    requires { array_string_len text.old + length head.now + 31 ≤ 48000 }
    ensures bytes { text.new.bytes ≡ text.old.bytes ++ primask_row exceptions.now side set head.now }
    ensures len { array_string_len text.new ≤ array_string_len text.old + length head.now + 31 }
{
    push_mask(
        text,
        head,
        u32::from(set),
        primask_priority(exceptions, side, set),
    );
}

#[tactic(auto, unfolding(crate::specs::Masks::basepri_row))]
fn push_basepri(text: &mut Text, exceptions: &Exceptions, side: Side, byte: u8, head: &str)
    requires { array_string_len text.old + length head.now + 31 ≤ 48000 }
    ensures bytes { text.new.bytes ≡ text.old.bytes ++ basepri_row exceptions.now side byte head.now }
    ensures len { array_string_len text.new ≤ array_string_len text.old + length head.now + 31 }
{
    push_mask(
        text,
        head,
        u32::from(byte),
        basepri_priority(exceptions, side, byte),
    );
}

#[tactic(auto, unfolding(crate::specs::Masks::faultmask_row))]
fn push_faultmask(text: &mut Text, exceptions: &Exceptions, side: Side, set: bool, head: &str)
    requires { array_string_len text.old + length head.now + 31 ≤ 48000 }
    ensures bytes { text.new.bytes ≡ text.old.bytes ++ faultmask_row exceptions.now side set head.now }
    ensures len { array_string_len text.new ≤ array_string_len text.old + length head.now + 31 }
{
    push_mask(
        text,
        head,
        u32::from(set),
        faultmask_priority(exceptions, side, set),
    );
}

/// The masks of a side, by what stands before each.
#[tactic(auto, unfolding(crate::specs::Masks::side_masks_text))]
fn push_side_masks(
    text: &mut Text,
    exceptions: &Exceptions,
    side: Side,
    masks: &SideMasks,
    primask: &str,
    basepri: &str,
    faultmask: &str,
)
    requires { array_string_len text.old + length primask.now + length basepri.now + length faultmask.now + 93 ≤ 48000 }
    ensures bytes { text.new.bytes ≡ text.old.bytes ++ side_masks_text exceptions.now side masks.now primask.now basepri.now faultmask.now }
    ensures len { array_string_len text.new ≤ array_string_len text.old + length primask.now + length basepri.now + length faultmask.now + 93 }
{
    push_primask(text, exceptions, side, masks.primask, primask);
    push_basepri(text, exceptions, side, masks.basepri, basepri);
    push_faultmask(text, exceptions, side, masks.faultmask, faultmask);
}

/// The part of the page on masks and priorities.
#[tactic(auto, unfolding(crate::specs::Masks::masks_text))]
pub fn push_masks(text: &mut Text, exceptions: &Exceptions, masks: &Masks)
    requires { array_string_len text.old + 284 ≤ 48000 }
    ensures bytes { text.new.bytes ≡ text.old.bytes ++ masks_text exceptions.now masks.now }
    ensures len { array_string_len text.new ≤ array_string_len text.old + 284 }
{
    text.push_str("\nMasks\n");
    push_side_masks(
        text,
        exceptions,
        Side::Secure,
        &masks.s,
        "  PRIMASK_S    ",
        "  BASEPRI_S    ",
        "  FAULTMASK_S  ",
    );
    push_side_masks(
        text,
        exceptions,
        Side::NonSecure,
        &masks.ns,
        "  PRIMASK_NS   ",
        "  BASEPRI_NS   ",
        "  FAULTMASK_NS ",
    );
}
