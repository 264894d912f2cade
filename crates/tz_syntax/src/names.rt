//! Registers, conditions, shifts and special registers by name. A number that stands for none has no name.

ghost use Rattle.std.specs.Prelude.{◌≡◌, ◌≤◌, length, map, slice_get};
ghost use Rattle.tz_syntax.specs.Names.{or_nothing, register_text, condition_text, shift_name as shift_name_of, special_text};

pub static REGISTERS: [&str; 16] = [
    "r0", "r1", "r2", "r3", "r4", "r5", "r6", "r7", "r8", "r9", "r10", "r11", "r12", "sp", "lr",
    "pc",
];

pub static CONDITIONS: [&str; 15] = [
    "eq", "ne", "cs", "cc", "mi", "pl", "vs", "vc", "hi", "ls", "ge", "lt", "gt", "le", "al",
];

pub static SHIFTS: [&str; 4] = ["lsl", "lsr", "asr", "ror"];

/// The special registers from number 0 on.
pub static SPECIALS: [&str; 21] = [
    "apsr",
    "iapsr",
    "eapsr",
    "xpsr",
    "",
    "ipsr",
    "epsr",
    "iepsr",
    "msp",
    "psp",
    "msplim",
    "psplim",
    "",
    "",
    "",
    "",
    "primask",
    "basepri",
    "basepri_max",
    "faultmask",
    "control",
];

/// Those of Non-secure state, from number 0x88 on.
pub static NONSECURE_SPECIALS: [&str; 17] = [
    "msp_ns",
    "psp_ns",
    "msplim_ns",
    "psplim_ns",
    "",
    "",
    "",
    "",
    "primask_ns",
    "basepri_ns",
    "",
    "faultmask_ns",
    "control_ns",
    "",
    "",
    "",
    "sp_ns",
];

/// The name with this number, of those of a kind.
fn name_at(names: &[&'static str], number: u32) -> &'static str
    ensures { result.now ≡ or_nothing (slice_get (map (λ name. name.now) names.now) number) }
{
    let place = number as usize;
    if place < names.len() {
        names[place]
    } else {
        ""
    }
}

/// The name of a register by its number, at most three bytes; empty where there is none.
pub fn register_name(number: u32) -> &'static str
    ensures text { result.now ≡ register_text number }
    ensures short { length result.now ≤ 3 }
{
    name_at(&REGISTERS, number)
}

/// The name of a condition by its number, two bytes; empty where there is none.
pub fn condition_name(number: u32) -> &'static str
    ensures text { result.now ≡ condition_text number }
    ensures short { length result.now ≤ 2 }
{
    name_at(&CONDITIONS, number)
}

/// The name of a shift that has an amount.
pub fn shift_name(number: u32) -> &'static str
    ensures text { result.now ≡ shift_name_of number }
    ensures short { length result.now ≤ 3 }
{
    name_at(&SHIFTS, number)
}

/// The name of a special register.
pub fn special_name(number: u32) -> &'static str
    ensures text { result.now ≡ special_text number }
    ensures short { length result.now ≤ 12 }
{
    if number < 0x88 {
        name_at(&SPECIALS, number)
    } else {
        name_at(&NONSECURE_SPECIALS, number - 0x88)
    }
}
