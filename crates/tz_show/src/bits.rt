//! The bits that are named where they are set: a table for each register that has some.

ghost use Rattle.std.specs.Prelude.{◌≡◌, ◌≤◌, ◌+◌, ◌++◌, length, map};
ghost use Rattle.arrayvec.specs.ArrayString.{array_string_len};
ghost use Rattle.tz_show.specs.Bits.{bits_of, bit_view, name_most, names_most};
ghost use Rattle.tz_show.specs.Rows.{bit_text, bits_text};

use crate::rows::Text;
use tz_frames::return_bits::{
    EXC_RETURN_DCRS, EXC_RETURN_ES, EXC_RETURN_FTYPE, EXC_RETURN_MODE, EXC_RETURN_S,
    EXC_RETURN_SPSEL,
};
use tz_regs::fault_bits::{
    AUVIOL, BFARVALID, DACCVIOL, DEBUGEVT, DIVBYZERO, FORCED, IACCVIOL, IBUSERR, INVEP, INVER,
    INVIS, INVPC, INVSTATE, INVTRAN, MMARVALID, MSTKERR, MUNSTKERR, NOCP, PRECISERR, SFARVALID,
    STKERR, STKOF, UNALIGNED, UNDEFINSTR, UNSTKERR, VECTTBL,
};
use tz_regs::register_bits::{
    APSR_C, APSR_N, APSR_Q, APSR_V, APSR_Z, CCR_DIV_0_TRP, CCR_UNALIGN_TRP, CONTROL_SPSEL,
};
use tz_state::mover_bits::{MOVER_DONE, MOVER_ERROR, MOVER_GO, MOVER_IE};
use tz_state::systick_bits::{
    SYST_CSR_CLKSOURCE, SYST_CSR_COUNTFLAG, SYST_CSR_ENABLE, SYST_CSR_TICKINT,
};
use tz_state::unit_bits::{MPU_CTRL_HFNMIENA, MPU_CTRL_PRIVDEFENA, SAU_CTRL_ALLNS};

/// Whose bits are named: those of a register, or of none, which is shown as its value alone.
#[derive(Clone, Copy)]
pub enum BitNames {
    Apsr,
    Control,
    Ccr,
    Ufsr,
    Mmfsr,
    Bfsr,
    Hfsr,
    Sfsr,
    SystCsr,
    MoverCtrl,
    SauCtrl,
    MpuCtrl,
    ExcReturn,
    Plain,
}

/// The word that has a bit alone, and the bit's name.
#[derive(Clone, Copy)]
pub struct Bit {
    pub mask: u32,
    pub name: &'static str,
}

pub static APSR: [Bit; 5] = [
    Bit {
        mask: APSR_N,
        name: "N",
    },
    Bit {
        mask: APSR_Z,
        name: "Z",
    },
    Bit {
        mask: APSR_C,
        name: "C",
    },
    Bit {
        mask: APSR_V,
        name: "V",
    },
    Bit {
        mask: APSR_Q,
        name: "Q",
    },
];

pub static CONTROL: [Bit; 2] = [
    Bit {
        mask: 1 << 0,
        name: "nPRIV",
    },
    Bit {
        mask: CONTROL_SPSEL,
        name: "SPSEL",
    },
];

pub static CCR: [Bit; 2] = [
    Bit {
        mask: CCR_UNALIGN_TRP,
        name: "UNALIGN_TRP",
    },
    Bit {
        mask: CCR_DIV_0_TRP,
        name: "DIV_0_TRP",
    },
];

pub static UFSR: [Bit; 7] = [
    Bit {
        mask: UNDEFINSTR,
        name: "UNDEFINSTR",
    },
    Bit {
        mask: INVSTATE,
        name: "INVSTATE",
    },
    Bit {
        mask: INVPC,
        name: "INVPC",
    },
    Bit {
        mask: NOCP,
        name: "NOCP",
    },
    Bit {
        mask: STKOF,
        name: "STKOF",
    },
    Bit {
        mask: UNALIGNED,
        name: "UNALIGNED",
    },
    Bit {
        mask: DIVBYZERO,
        name: "DIVBYZERO",
    },
];

pub static MMFSR: [Bit; 5] = [
    Bit {
        mask: IACCVIOL,
        name: "IACCVIOL",
    },
    Bit {
        mask: DACCVIOL,
        name: "DACCVIOL",
    },
    Bit {
        mask: MUNSTKERR,
        name: "MUNSTKERR",
    },
    Bit {
        mask: MSTKERR,
        name: "MSTKERR",
    },
    Bit {
        mask: MMARVALID,
        name: "MMARVALID",
    },
];

pub static BFSR: [Bit; 5] = [
    Bit {
        mask: IBUSERR,
        name: "IBUSERR",
    },
    Bit {
        mask: PRECISERR,
        name: "PRECISERR",
    },
    Bit {
        mask: UNSTKERR,
        name: "UNSTKERR",
    },
    Bit {
        mask: STKERR,
        name: "STKERR",
    },
    Bit {
        mask: BFARVALID,
        name: "BFARVALID",
    },
];

pub static HFSR: [Bit; 3] = [
    Bit {
        mask: VECTTBL,
        name: "VECTTBL",
    },
    Bit {
        mask: FORCED,
        name: "FORCED",
    },
    Bit {
        mask: DEBUGEVT,
        name: "DEBUGEVT",
    },
];

pub static SFSR: [Bit; 6] = [
    Bit {
        mask: INVEP,
        name: "INVEP",
    },
    Bit {
        mask: INVIS,
        name: "INVIS",
    },
    Bit {
        mask: INVER,
        name: "INVER",
    },
    Bit {
        mask: AUVIOL,
        name: "AUVIOL",
    },
    Bit {
        mask: INVTRAN,
        name: "INVTRAN",
    },
    Bit {
        mask: SFARVALID,
        name: "SFARVALID",
    },
];

pub static SYST_CSR: [Bit; 4] = [
    Bit {
        mask: SYST_CSR_ENABLE,
        name: "ENABLE",
    },
    Bit {
        mask: SYST_CSR_TICKINT,
        name: "TICKINT",
    },
    Bit {
        mask: SYST_CSR_CLKSOURCE,
        name: "CLKSOURCE",
    },
    Bit {
        mask: SYST_CSR_COUNTFLAG,
        name: "COUNTFLAG",
    },
];

pub static MOVER_CTRL: [Bit; 4] = [
    Bit {
        mask: MOVER_GO,
        name: "GO",
    },
    Bit {
        mask: MOVER_DONE,
        name: "DONE",
    },
    Bit {
        mask: MOVER_ERROR,
        name: "ERROR",
    },
    Bit {
        mask: MOVER_IE,
        name: "IE",
    },
];

pub static SAU_CTRL: [Bit; 2] = [
    Bit {
        mask: 1 << 0,
        name: "ENABLE",
    },
    Bit {
        mask: SAU_CTRL_ALLNS,
        name: "ALLNS",
    },
];

pub static MPU_CTRL: [Bit; 3] = [
    Bit {
        mask: 1 << 0,
        name: "ENABLE",
    },
    Bit {
        mask: MPU_CTRL_HFNMIENA,
        name: "HFNMIENA",
    },
    Bit {
        mask: MPU_CTRL_PRIVDEFENA,
        name: "PRIVDEFENA",
    },
];

pub static EXC_RETURN: [Bit; 6] = [
    Bit {
        mask: EXC_RETURN_ES,
        name: "ES",
    },
    Bit {
        mask: EXC_RETURN_SPSEL,
        name: "SPSEL",
    },
    Bit {
        mask: EXC_RETURN_MODE,
        name: "Mode",
    },
    Bit {
        mask: EXC_RETURN_FTYPE,
        name: "FType",
    },
    Bit {
        mask: EXC_RETURN_DCRS,
        name: "DCRS",
    },
    Bit {
        mask: EXC_RETURN_S,
        name: "S",
    },
];

/// No bits.
pub static NONE: [Bit; 0] = [];

/// The bits of a register by name.
pub fn bits_of(named: BitNames) -> &'static [Bit]
    ensures bits { map bit_view result.now ≡ bits_of named }
    ensures few { names_most (map bit_view result.now) ≤ 64 }
{
    match named {
        BitNames::Apsr => &APSR,
        BitNames::Control => &CONTROL,
        BitNames::Ccr => &CCR,
        BitNames::Ufsr => &UFSR,
        BitNames::Mmfsr => &MMFSR,
        BitNames::Bfsr => &BFSR,
        BitNames::Hfsr => &HFSR,
        BitNames::Sfsr => &SFSR,
        BitNames::SystCsr => &SYST_CSR,
        BitNames::MoverCtrl => &MOVER_CTRL,
        BitNames::SauCtrl => &SAU_CTRL,
        BitNames::MpuCtrl => &MPU_CTRL,
        BitNames::ExcReturn => &EXC_RETURN,
        BitNames::Plain => &NONE,
    }
}

/// The name of a bit, where it is set.
#[tactic(auto, unfolding(crate::specs::Rows::bit_text))]
fn push_bit(text: &mut Text, value: u32, bit: &Bit)
    requires { array_string_len text.old + name_most (bit_view bit.now) ≤ 48000 }
    ensures bytes { text.new.bytes ≡ text.old.bytes ++ bit_text value (bit_view bit.now) }
    ensures len { array_string_len text.new ≤ array_string_len text.old + name_most (bit_view bit.now) }
{
    if value & bit.mask != 0 {
        text.push_str(" ");
        text.push_str(bit.name);
    }
}

/// The names of all bits of a table that are set.
#[tactic(auto, unfolding(crate::specs::Rows::bits_text))]
pub fn push_bits(text: &mut Text, value: u32, bits: &[Bit])
    requires { array_string_len text.old + names_most (map bit_view bits.now) ≤ 48000 }
    ensures bytes { text.new.bytes ≡ text.old.bytes ++ bits_text value (map bit_view bits.now) }
    ensures len { array_string_len text.new ≤ array_string_len text.old + names_most (map bit_view bits.now) }
{
    for bit in bits {
        push_bit(text, value, bit);
    }
}
