//! The special registers, by the number that an instruction names.

ghost use Rattle.std.specs.Prelude.{◌≡◌, true, false, MatchResult};
ghost use Rattle.tz_regs.specs.Banks.{masks_of};
ghost use Rattle.tz_regs.specs.Special.{named_of, with_named, special_named, number_of, control_of, apsr_word, read_bank, read_named, read_psr, read_ns, special_of, faultmask_after, basepri_after, written_stacks, written_masks, stacks_written, masks_written, written_own, written_ns, apsr_from, with_special, is_below_limit, changed_masks, changed_state};

use crate::parts::{Apsr, Core, Registers, SideMasks, Stacks};
use crate::register_bits::{APSR_C, APSR_N, APSR_Q, APSR_V, APSR_Z, CONTROL_SPSEL};
use thiserror::Error;
use tz_model::Side;

/// A stack pointer would be below its limit.
#[derive(Clone, Copy, Debug, Error)]
#[error("the stack pointer would be below its limit")]
pub struct StackLimit;

/// The banked special registers. `Sp` is the stack pointer in use.
#[derive(Clone, Copy)]
pub enum Special {
    Msp,
    Psp,
    Msplim,
    Psplim,
    Primask,
    Basepri,
    BasepriMax,
    Faultmask,
    Control,
    Sp,
}

/// The banked register that the low seven bits of a number name.
fn special_named(number: u8) -> Option<Special>
    ensures { result ≡ special_named number }
{
    match number {
        8 => Some(Special::Msp),
        9 => Some(Special::Psp),
        10 => Some(Special::Msplim),
        11 => Some(Special::Psplim),
        16 => Some(Special::Primask),
        17 => Some(Special::Basepri),
        18 => Some(Special::BasepriMax),
        19 => Some(Special::Faultmask),
        20 => Some(Special::Control),
        24 => Some(Special::Sp),
        _ => None,
    }
}

/// A flag as a number.
fn number_of(flag: bool) -> u32
    ensures { result ≡ number_of flag }
{
    if flag { 1 } else { 0 }
}

impl Stacks {
    /// CONTROL: nPRIV in bit 0, SPSEL in bit 1.
    pub fn control(&self) -> u32
        ensures { result ≡ control_of self.now }
    {
        number_of(self.npriv) + CONTROL_SPSEL * number_of(self.spsel)
    }

    /// Writes what a register of this bank holds of stacks and CONTROL.
    fn write(&mut self, ipsr: u16, special: Special, value: u32)
        ensures { self.new ≡ written_stacks ipsr self.old special value }
    {
        match special {
            Special::Msp => self.msp = value / 4 * 4,
            Special::Psp => self.psp = value / 4 * 4,
            Special::Msplim => self.msplim = value / 8 * 8,
            Special::Psplim => self.psplim = value / 8 * 8,
            Special::Control => {
                self.npriv = value % 2 == 1;
                self.spsel = value / CONTROL_SPSEL % 2 == 1;
            }
            Special::Sp => self.set_pointer(ipsr, value),
            _ => {}
        }
    }
}

/// FAULTMASK is set only where the execution priority is above -1, and is always cleared.
fn faultmask_after(priority: i32, old: bool, new: bool) -> bool
    ensures { result ≡ faultmask_after priority old new }
{
    if new && !(-1 < priority) { old } else { new }
}

/// BASEPRI_MAX takes only a more urgent priority than BASEPRI, which is none where it is 0.
fn basepri_after(old: u8, new: u8) -> u8
    ensures { result ≡ basepri_after old new }
{
    if new != 0 && (new < old || old == 0) {
        new
    } else {
        old
    }
}

impl SideMasks {
    /// Writes what a register of this bank holds of masks.
    fn write(&mut self, priority: i32, special: Special, value: u32)
        ensures { self.new ≡ written_masks priority self.old special value }
    {
        match special {
            Special::Primask => self.primask = value % 2 == 1,
            Special::Basepri => self.basepri = (value % 256) as u8,
            Special::BasepriMax => {
                self.basepri = basepri_after(self.basepri, (value % 256) as u8);
            }
            Special::Faultmask => {
                self.faultmask = faultmask_after(priority, self.faultmask, value % 2 == 1);
            }
            _ => {}
        }
    }

    /// Sets or clears PRIMASK and FAULTMASK.
    fn change(&mut self, priority: i32, disable: bool, i: bool, f: bool)
        ensures { self.new ≡ changed_masks priority disable i f self.old }
    {
        if i {
            self.primask = disable;
        }
        if f {
            self.faultmask = faultmask_after(priority, self.faultmask, disable);
        }
    }
}

/// A register of a bank.
fn read_bank(ipsr: u16, stacks: &Stacks, masks: &SideMasks, special: Special) -> u32
    ensures { result ≡ read_bank ipsr stacks.now masks.now special }
{
    match special {
        Special::Msp => stacks.msp,
        Special::Psp => stacks.psp,
        Special::Msplim => stacks.msplim,
        Special::Psplim => stacks.psplim,
        Special::Primask => number_of(masks.primask),
        Special::Basepri | Special::BasepriMax => u32::from(masks.basepri),
        Special::Faultmask => number_of(masks.faultmask),
        Special::Control => stacks.control(),
        Special::Sp => stacks.pointer(ipsr),
    }
}

/// A register of a bank by its number; a number that names none reads zero.
fn read_named(ipsr: u16, stacks: &Stacks, masks: &SideMasks, number: u8) -> u32
    ensures { result ≡ read_named ipsr stacks.now masks.now (special_named number) }
{
    match special_named(number) {
        Some(special) => read_bank(ipsr, stacks, masks, special),
        None => 0,
    }
}

/// Writes a register of a bank by its number.
fn write_named(
    ipsr: u16,
    priority: i32,
    stacks: &mut Stacks,
    masks: &mut SideMasks,
    number: u8,
    value: u32,
)
    ensures stacks { stacks.new ≡ stacks_written ipsr stacks.old (special_named number) value }
    ensures masks { masks.new ≡ masks_written priority masks.old (special_named number) value }
{
    if let Some(special) = special_named(number) {
        stacks.write(ipsr, special, value);
        masks.write(priority, special, value);
    }
}

impl Apsr {
    /// The flags at their places in a word.
    pub fn word(&self) -> u32
        ensures { result ≡ apsr_word self.now }
    {
        APSR_N * number_of(self.n)
            + APSR_Z * number_of(self.z)
            + APSR_C * number_of(self.c)
            + APSR_V * number_of(self.v)
            + APSR_Q * number_of(self.q)
    }

    /// A word as flags.
    fn from_word(value: u32) -> Apsr
        ensures { result ≡ apsr_from value }
    {
        Apsr {
            n: value / APSR_N % 2 == 1,
            z: value / APSR_Z % 2 == 1,
            c: value / APSR_C % 2 == 1,
            v: value / APSR_V % 2 == 1,
            q: value / APSR_Q % 2 == 1,
        }
    }
}

impl Registers {
    /// The parts of xPSR that a number below 8 names.
    fn psr(&self, sysm: u8) -> u32
        ensures { result ≡ read_psr self.now sysm }
    {
        let flags = if sysm / 4 % 2 == 0 {
            self.apsr.word()
        } else {
            0
        };
        let number = if sysm % 2 == 1 {
            u32::from(self.ipsr)
        } else {
            0
        };
        flags + number
    }
}

impl Core {
    /// A register of the Non-secure bank, which only Secure code can name.
    fn read_ns(&self, sysm: u8) -> u32
        ensures { result ≡ read_ns (named_of self.now) sysm }
    {
        match self.run.side {
            Side::Secure => read_named(
                self.registers.ipsr,
                &self.stacks_ns,
                &self.masks.ns,
                sysm % 128,
            ),
            Side::NonSecure => 0,
        }
    }

    /// A register of code's own bank.
    fn read_own(&self, number: u8) -> u32
        ensures { result ≡ read_named self.now.registers.ipsr (named_of self.now).own (masks_of self.now.run.side self.now.masks) (special_named number) }
    {
        let ipsr = self.registers.ipsr;
        match self.run.side {
            Side::Secure => read_named(ipsr, &self.stacks_s, &self.masks.s, number),
            Side::NonSecure => read_named(ipsr, &self.stacks_ns, &self.masks.ns, number),
        }
    }

    /// The special register that an instruction names by `sysm` (DDI0553, `MRS`): 0 to 7 parts of xPSR,
    /// whose EPSR reads zero; 8 to 20 code's own bank; from 128 on the Non-secure bank, which reads zero in
    /// Non-secure state. Unprivileged code reads xPSR and its CONTROL, and all else as zero.
    pub fn special(&self, sysm: u8) -> u32
        ensures { result ≡ special_of (named_of self.now) sysm }
    {
        if sysm < 8 {
            self.registers.psr(sysm)
        } else if !(self.privileged(self.run.side) || sysm == 20) {
            0
        } else if sysm < 128 {
            self.read_own(sysm)
        } else {
            self.read_ns(sysm)
        }
    }

    /// Writes a register of code's own bank.
    fn write_own(&mut self, number: u8, value: u32, priority: i32)
        ensures { self.new ≡ with_named self.old (written_own (named_of self.old) number value priority) }
    {
        let ipsr = self.registers.ipsr;
        match self.run.side {
            Side::Secure => write_named(
                ipsr,
                priority,
                &mut self.stacks_s,
                &mut self.masks.s,
                number,
                value,
            ),
            Side::NonSecure => write_named(
                ipsr,
                priority,
                &mut self.stacks_ns,
                &mut self.masks.ns,
                number,
                value,
            ),
        }
    }

    /// Writes a register of the Non-secure bank, which only Secure code can name.
    fn write_ns(&mut self, sysm: u8, value: u32, priority: i32)
        ensures { self.new ≡ with_named self.old (written_ns (named_of self.old) sysm value priority) }
    {
        match self.run.side {
            Side::Secure => write_named(
                self.registers.ipsr,
                priority,
                &mut self.stacks_ns,
                &mut self.masks.ns,
                sysm % 128,
                value,
            ),
            Side::NonSecure => {}
        }
    }

    /// Whether SP_NS would be written below its limit.
    fn is_below_limit(&self, sysm: u8, value: u32) -> bool
        ensures { result ≡ is_below_limit (named_of self.now) sysm value }
    {
        if sysm != 0x98 {
            return false;
        }
        let ipsr = self.registers.ipsr;
        match self.run.side {
            Side::Secure => self.stacks_s.privileged(ipsr) && value < self.stacks_ns.limit(ipsr),
            Side::NonSecure => false,
        }
    }

    /// Writes what isn't refused.
    fn write_special(&mut self, sysm: u8, value: u32, priority: i32)
        ensures { self.new ≡ with_named self.old (with_special (named_of self.old) sysm value priority) }
    {
        if sysm < 4 {
            self.registers.apsr = Apsr::from_word(value);
        } else if sysm < 8 || !self.privileged(self.run.side) {} else if sysm < 128 {
            self.write_own(sysm, value, priority);
        } else {
            self.write_ns(sysm, value, priority);
        }
    }

    /// Writes the special register that an instruction names by `sysm` (DDI0553, `MSR`). Numbers are those
    /// of `special`; 0 to 3 write the flags, 5 to 7 nothing. FAULTMASK is set only where `priority`, the
    /// execution priority, is above -1. `StackLimit` exactly where `sysm` is SP_NS, the write isn't
    /// ignored, and the value is below the limit of that stack; then nothing changes.
    pub fn set_special(&mut self, sysm: u8, value: u32, priority: i32) -> Result<(), StackLimit>
        ensures { MatchResult result
            (λ _. (is_below_limit (named_of self.old) sysm value ≡ false) × (self.new ≡ with_named self.old (with_special (named_of self.old) sysm value priority)))
            (λ _. (is_below_limit (named_of self.old) sysm value ≡ true) × (self.new ≡ self.old)) }
    {
        if self.is_below_limit(sysm, value) {
            return Err(StackLimit);
        }
        self.write_special(sysm, value, priority);
        Ok(())
    }

    /// Sets or clears PRIMASK and FAULTMASK of code's own side (DDI0553, `CPS`), as MSR does.
    /// Unprivileged code changes nothing.
    pub fn change_state(&mut self, disable: bool, i: bool, f: bool, priority: i32)
        ensures { self.new ≡ with_named self.old (changed_state priority disable i f (named_of self.old)) }
    {
        if self.privileged(self.run.side) {
            match self.run.side {
                Side::Secure => self.masks.s.change(priority, disable, i, f),
                Side::NonSecure => self.masks.ns.change(priority, disable, i, f),
            }
        }
    }
}
