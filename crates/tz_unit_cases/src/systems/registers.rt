//! The registers of the core.

use crate::words::{side_at, tell_flag, tell_number};
use tz_model::{Side, Sleep};
use tz_regs::Core;
use tz_testing::{Case, meant};

/// A register that each side has, or whether its code is privileged.
enum BankedRegister {
    Msp,
    Psp,
    Msplim,
    Psplim,
    Primask,
    Basepri,
    Faultmask,
    Control,
    Vtor,
    Ccr,
    Ufsr,
    Mmfsr,
    Mmfar,
    Privileged,
}

static BANKED: [(&str, BankedRegister); 14] = [
    ("msp", BankedRegister::Msp),
    ("psp", BankedRegister::Psp),
    ("msplim", BankedRegister::Msplim),
    ("psplim", BankedRegister::Psplim),
    ("primask", BankedRegister::Primask),
    ("basepri", BankedRegister::Basepri),
    ("faultmask", BankedRegister::Faultmask),
    ("control", BankedRegister::Control),
    ("vtor", BankedRegister::Vtor),
    ("ccr", BankedRegister::Ccr),
    ("ufsr", BankedRegister::Ufsr),
    ("mmfsr", BankedRegister::Mmfsr),
    ("mmfar", BankedRegister::Mmfar),
    ("privileged", BankedRegister::Privileged),
];

/// What it is on a side.
fn banked(core: &Core, side: Side, register: &BankedRegister) -> u32 {
    match register {
        BankedRegister::Msp => core.msp(side),
        BankedRegister::Psp => core.psp(side),
        BankedRegister::Msplim => core.msplim(side),
        BankedRegister::Psplim => core.psplim(side),
        BankedRegister::Primask => core.primask(side),
        BankedRegister::Basepri => core.basepri(side),
        BankedRegister::Faultmask => core.faultmask(side),
        BankedRegister::Control => core.control(side),
        BankedRegister::Vtor => core.vtor(side),
        BankedRegister::Ccr => core.ccr(side),
        BankedRegister::Ufsr => core.ufsr(side),
        BankedRegister::Mmfsr => core.mmfsr(side),
        BankedRegister::Mmfar => core.mmfar(side),
        BankedRegister::Privileged => u32::from(core.privileged(side)),
    }
}

/// A register or a state that stands once.
enum CommonRegister {
    Pc,
    Lr,
    It,
    Ipsr,
    Sfsr,
    Sfar,
    Bfsr,
    Bfar,
    Hfsr,
    Flags,
    Pointer,
    Handler,
    Away,
    Sleep,
    State(CoreState),
}

/// A state that is so or not.
enum CoreState {
    Locked,
    Event,
    T,
    N,
    Z,
    C,
    V,
    Q,
}

static COMMON: [(&str, CommonRegister); 22] = [
    ("pc", CommonRegister::Pc),
    ("lr", CommonRegister::Lr),
    ("it", CommonRegister::It),
    ("ipsr", CommonRegister::Ipsr),
    ("sfsr", CommonRegister::Sfsr),
    ("sfar", CommonRegister::Sfar),
    ("bfsr", CommonRegister::Bfsr),
    ("bfar", CommonRegister::Bfar),
    ("hfsr", CommonRegister::Hfsr),
    ("flags", CommonRegister::Flags),
    ("pointer", CommonRegister::Pointer),
    ("handler", CommonRegister::Handler),
    ("away", CommonRegister::Away),
    ("sleep", CommonRegister::Sleep),
    ("locked", CommonRegister::State(CoreState::Locked)),
    ("event", CommonRegister::State(CoreState::Event)),
    ("t", CommonRegister::State(CoreState::T)),
    ("n", CommonRegister::State(CoreState::N)),
    ("z", CommonRegister::State(CoreState::Z)),
    ("c", CommonRegister::State(CoreState::C)),
    ("v", CommonRegister::State(CoreState::V)),
    ("q", CommonRegister::State(CoreState::Q)),
];

/// What a core waits for, by number: nothing, an interrupt, an event.
static SLEEPS: [Sleep; 3] = [Sleep::Awake, Sleep::Wfi, Sleep::Wfe];

/// The number of what a core waits for.
fn sleep_number(sleep: Sleep) -> u32 {
    match sleep {
        Sleep::Awake => 0,
        Sleep::Wfi => 1,
        Sleep::Wfe => 2,
    }
}

/// Whether a state is so.
fn is_so(core: &Core, state: &CoreState) -> bool {
    match state {
        CoreState::Locked => core.locked(),
        CoreState::Event => core.event(),
        CoreState::T => core.t(),
        CoreState::N => core.n(),
        CoreState::Z => core.z(),
        CoreState::C => core.c(),
        CoreState::V => core.v(),
        CoreState::Q => core.q(),
    }
}

/// Whether the core isn't Secure, or isn't awake.
fn is_away(core: &Core) -> bool {
    !matches!(core.side(), Side::Secure) || !matches!(core.sleep(), Sleep::Awake)
}

/// What a register or a state is that stands once.
fn common(core: &Core, register: &CommonRegister) -> u32 {
    match register {
        CommonRegister::Pc => core.pc(),
        CommonRegister::Lr => core.lr(),
        CommonRegister::It => u32::from(core.it()),
        CommonRegister::Ipsr => u32::from(core.ipsr()),
        CommonRegister::Sfsr => core.sfsr(),
        CommonRegister::Sfar => core.sfar(),
        CommonRegister::Bfsr => core.bfsr(),
        CommonRegister::Bfar => core.bfar(),
        CommonRegister::Hfsr => core.hfsr(),
        CommonRegister::Flags => core.registers.apsr.word(),
        CommonRegister::Pointer => core.pointer(),
        CommonRegister::Handler => u32::from(core.handler()),
        CommonRegister::Away => u32::from(is_away(core)),
        CommonRegister::Sleep => sleep_number(core.sleep()),
        CommonRegister::State(known) => u32::from(is_so(core, known)),
    }
}

/// Shows registers of a side: `banked SIDE NAME ..`.
fn show_banked(core: &Core, case: &mut Case<'_>) {
    let side = side_at(case, 1);
    for name in case.behind(2).split_whitespace() {
        match meant(&BANKED, name) {
            Some(register) => tell_number(case, banked(core, side, register)),
            None => case.refuse(),
        }
    }
}

/// Shows registers and states that stand once: `common NAME ..`.
fn show_common(core: &Core, case: &mut Case<'_>) {
    for name in case.behind(1).split_whitespace() {
        match meant(&COMMON, name) {
            Some(register) => tell_number(case, common(core, register)),
            None => case.refuse(),
        }
    }
}

/// Shows R0 to R14: `general NUMBER ..`.
fn show_general(core: &Core, case: &mut Case<'_>) {
    for word in case.behind(1).split_whitespace() {
        let n = case.number_in(word);
        if n > 14 {
            return case.refuse();
        }
        tell_number(case, core.get(n as u8));
    }
}

/// The registers of which a change is told.
static TOLD: [&str; 18] = [
    "msp_s",
    "psp_s",
    "msplim_s",
    "psplim_s",
    "primask_s",
    "basepri_s",
    "faultmask_s",
    "control_s",
    "msp_ns",
    "psp_ns",
    "msplim_ns",
    "psplim_ns",
    "primask_ns",
    "basepri_ns",
    "faultmask_ns",
    "control_ns",
    "flags",
    "r3",
];

/// What they hold.
fn shown(core: &Core) -> [u32; 18] {
    let s = Side::Secure;
    let ns = Side::NonSecure;
    [
        core.msp(s),
        core.psp(s),
        core.msplim(s),
        core.psplim(s),
        core.primask(s),
        core.basepri(s),
        core.faultmask(s),
        core.control(s),
        core.msp(ns),
        core.psp(ns),
        core.msplim(ns),
        core.psplim(ns),
        core.primask(ns),
        core.basepri(ns),
        core.faultmask(ns),
        core.control(ns),
        core.registers.apsr.word(),
        core.get(3),
    ]
}

/// Shows each register that differs from what it was, with its value, or `same`.
fn changed(before: &Core, core: &Core, case: &mut Case<'_>) {
    let old = shown(before);
    let new = shown(core);
    let mut same = true;
    for (index, name) in TOLD.iter().enumerate() {
        if old[index] != new[index] {
            same = false;
            case.tell_word(name);
            tell_number(case, new[index]);
        }
    }
    if same {
        case.tell_word("same");
    }
}

/// A step that shows registers.
pub enum ShowStep {
    Banked,
    Common,
    General,
    Special,
    Changed,
}

/// Shows registers: `special NUMBER`, what a special register reads as; `changed`, each that differs from before; or
/// others by their names or numbers.
pub fn show(before: &Core, core: &Core, show: &ShowStep, case: &mut Case<'_>) {
    match show {
        ShowStep::Banked => show_banked(core, case),
        ShowStep::Common => show_common(core, case),
        ShowStep::General => show_general(core, case),
        ShowStep::Special => {
            let number = case.byte(1);
            tell_number(case, core.special(number));
        }
        ShowStep::Changed => changed(before, core, case),
    }
}

/// The core as the case began, in a state, with privilege or not: `code SIDE privileged`, `code SIDE user`.
fn code(start: &Core, core: &mut Core, case: &mut Case<'_>) {
    let side = side_at(case, 1);
    let user = match case.word(2) {
        "privileged" => 0,
        "user" => 1,
        _ => return case.refuse(),
    };
    *core = *start;
    core.set_side(side);
    let spsel = core.control(side) / 2 % 2 * 2;
    core.set_control(side, spsel + user);
}

/// Writes a register of a side by its name.
pub fn set_named(case: &mut Case<'_>, core: &mut Core, side: Side, name: &str, value: u32) {
    match meant(&BANKED, name) {
        Some(BankedRegister::Msp) => core.set_msp(side, value),
        Some(BankedRegister::Psp) => core.set_psp(side, value),
        Some(BankedRegister::Msplim) => core.set_msplim(side, value),
        Some(BankedRegister::Psplim) => core.set_psplim(side, value),
        Some(BankedRegister::Primask) => core.set_primask(side, value),
        Some(BankedRegister::Basepri) => core.set_basepri(side, value),
        Some(BankedRegister::Faultmask) => core.set_faultmask(side, value),
        Some(BankedRegister::Control) => core.set_control(side, value),
        Some(BankedRegister::Vtor) => core.set_vtor(side, value),
        Some(BankedRegister::Ccr) => core.set_ccr(side, value),
        Some(BankedRegister::Ufsr) => core.set_ufsr(side, value),
        Some(BankedRegister::Mmfsr) => core.set_mmfsr(side, value),
        Some(BankedRegister::Mmfar) => core.set_mmfar(side, value),
        Some(BankedRegister::Privileged) | None => case.refuse(),
    }
}

/// Writes a state.
fn set_state(core: &mut Core, state: &CoreState, value: bool) {
    match state {
        CoreState::Locked => core.set_locked(value),
        CoreState::Event => core.set_event(value),
        CoreState::T => core.set_t(value),
        CoreState::N => core.set_n(value),
        CoreState::Z => core.set_z(value),
        CoreState::C => core.set_c(value),
        CoreState::V => core.set_v(value),
        CoreState::Q => core.set_q(value),
    }
}

/// Writes a register or a state that stands once: `put NAME VALUE`, `put NAME FLAG`.
fn put(core: &mut Core, case: &mut Case<'_>) {
    let name = case.word(1);
    let value = case.number(2);
    match meant(&COMMON, name) {
        Some(CommonRegister::Pc) => core.set_pc(value),
        Some(CommonRegister::Lr) => core.set_lr(value),
        Some(CommonRegister::It) => core.set_it(case.byte_in(value)),
        Some(CommonRegister::Ipsr) => core.set_ipsr(case.half_in(value)),
        Some(CommonRegister::Sfsr) => core.set_sfsr(value),
        Some(CommonRegister::Sfar) => core.set_sfar(value),
        Some(CommonRegister::Bfsr) => core.set_bfsr(value),
        Some(CommonRegister::Bfar) => core.set_bfar(value),
        Some(CommonRegister::Hfsr) => core.set_hfsr(value),
        Some(CommonRegister::Sleep) => match SLEEPS.get(value as usize) {
            Some(sleep) => core.set_sleep(*sleep),
            None => case.refuse(),
        },
        Some(CommonRegister::State(state)) if value <= 1 => set_state(core, state, value == 1),
        _ => case.refuse(),
    }
}

/// A step that changes the core.
pub enum ChangeStep {
    Code,
    Set,
    Put,
    Side,
    Load,
    Limited,
    Boot,
}

/// Changes the core: `set SIDE NAME VALUE` writes a register of a side, `side SIDE` sets the side that runs, `load
/// NUMBER VALUE` writes R0 to R14, `limited VALUE` writes the stack pointer in use where its limit lets that, and shows
/// whether it does, and `boot VTOR_S VTOR_NS MSP PC LOCKED` starts it; or it is another step.
pub fn change(start: &Core, core: &mut Core, change: &ChangeStep, case: &mut Case<'_>) {
    match change {
        ChangeStep::Code => code(start, core, case),
        ChangeStep::Set => {
            let side = side_at(case, 1);
            let name = case.word(2);
            let value = case.number(3);
            set_named(case, core, side, name, value);
        }
        ChangeStep::Put => put(core, case),
        ChangeStep::Side => core.set_side(side_at(case, 1)),
        ChangeStep::Load => {
            let n = case.byte(1);
            let value = case.number(2);
            if n > 14 {
                return case.refuse();
            }
            core.set(n, value);
        }
        ChangeStep::Limited => {
            let is_taken = core.set_sp_checked(case.number(1)).is_ok();
            tell_flag(case, is_taken)
        }
        ChangeStep::Boot => {
            *core = Core::reset(
                case.number(1),
                case.number(2),
                case.number(3),
                case.number(4),
                case.flag(5),
            )
        }
    }
}
