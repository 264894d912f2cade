//! Fields, slots and channels written by their words. Each keeps the bits that it has; a word that isn't read back is none of its
//! values.

ghost use Rattle.std.specs.Prelude.{◌≡◌, ◌<◌};
ghost use Rattle.tz_regs.specs.Special.{apsr_from};
ghost use Rattle.tz_fields.specs.declared.fields.RunningField.TheVariants as running;
ghost use Rattle.tz_fields.specs.declared.fields.BankedField.TheVariants as banked;
ghost use Rattle.tz_fields.specs.declared.fields.SharedField.TheVariants as shared;
ghost use Rattle.tz_fields.specs.ReadWords.{side_from, sleep_from, with_psr, running_written, banked_written, shared_written, written, slot_written, channel_put, channel_written, fits, slot_fits, channel_fits, IsFresh};

use crate::fields::{BankedField, ChannelField, Field, RunningField, SharedField};
use crate::from_words::ReadState;
use crate::words::{channel_word, slot_word, word_of};
use tz_frames::return_bits::{RETPSR_IT_HIGH, RETPSR_IT_LOW, RETPSR_T};
use tz_model::{Channel, Side, Size, Sleep};
use tz_nvic::{FIRST_INTERRUPT_PLACE, is_always_enabled};
use tz_regs::register_bits::{APSR_C, APSR_N, APSR_Q, APSR_V, APSR_Z};
use tz_regs::{Apsr, Registers};
use tz_state::exception::{HARD_FAULT, NMI};
use tz_state::mover_bits::MOVER_CTRL_BITS;
use tz_state::systick_bits::SYST_CSR_BITS;
use tz_state::{MoverRegister, MpuRegister, SauRegister, SlotState};

fn side_from(word: u32) -> Side
    ensures { result ≡ side_from word }
{
    if word % 2 == 1 {
        Side::NonSecure
    } else {
        Side::Secure
    }
}

fn sleep_from(word: u32) -> Sleep
    ensures { result ≡ sleep_from word }
{
    if word == 0 {
        Sleep::Awake
    } else if word == 1 {
        Sleep::Wfi
    } else {
        Sleep::Wfe
    }
}

/// The flags of xPSR.
fn flags_from(word: u32) -> Apsr
    ensures { result ≡ apsr_from word }
{
    Apsr {
        n: word / APSR_N % 2 == 1,
        z: word / APSR_Z % 2 == 1,
        c: word / APSR_C % 2 == 1,
        v: word / APSR_V % 2 == 1,
        q: word / APSR_Q % 2 == 1,
    }
}

/// Writes xPSR.
fn put_psr(registers: &mut Registers, word: u32)
    ensures { registers.new ≡ with_psr registers.old word }
{
    registers.apsr = flags_from(word);
    registers.it = (word / RETPSR_IT_LOW % 4 + 4 * (word / RETPSR_IT_HIGH % 64)) as u8;
    registers.t = word / RETPSR_T % 2 == 1;
    registers.ipsr = (word % 0x200) as u16;
}

/// The channel with a register written: with all bits that it has.
fn channel_put(channel: Channel, register: MoverRegister, word: u32) -> Channel
    ensures { result ≡ channel_put channel register word }
{
    match register {
        MoverRegister::Src => Channel {
            src: word / 4 * 4,
            ..channel
        },
        MoverRegister::Dst => Channel {
            dst: word / 4 * 4,
            ..channel
        },
        MoverRegister::Count => Channel {
            count: (word % 0x1_0000) as u16,
            ..channel
        },
        MoverRegister::Ctrl => Channel {
            ctrl: word & MOVER_CTRL_BITS,
            ..channel
        },
    }
}

impl ReadState {
    fn put_general(&mut self, k: u8, word: u32)
        ensures { self.new ≡ running_written self.old (running.General k) word }
    {
        let k = usize::from(k);
        let general: &mut [u32] = &mut self.core.registers.general;
        if k < general.len() {
            general[k] = word;
        }
    }

    /// The monitor holds an address with this size in bytes; with any other number it holds nothing.
    fn put_held_size(&mut self, word: u32)
        ensures { self.new ≡ running_written self.old running.MonitorSize word }
    {
        let addr = match self.bus.monitor() {
            None => 0,
            Some((addr, _)) => addr,
        };
        match word {
            1 => self.bus.monitor_set(addr, Size::Byte),
            2 => self.bus.monitor_set(addr, Size::Half),
            4 => self.bus.monitor_set(addr, Size::Word),
            _ => self.bus.monitor_clear(),
        }
    }

    fn put_held_address(&mut self, word: u32)
        ensures { self.new ≡ running_written self.old running.MonitorAddress word }
    {
        if let Some((_, size)) = self.bus.monitor() {
            self.bus.monitor_set(word, size);
        }
    }

    fn put_running(&mut self, field: RunningField, word: u32)
        ensures { self.new ≡ running_written self.old field word }
    {
        match field {
            RunningField::Side => self.core.run.side = side_from(word),
            RunningField::Locked => self.core.run.locked = word % 2 == 1,
            RunningField::Sleep => self.core.run.sleep = sleep_from(word),
            RunningField::Event => self.core.event = word % 2 == 1,
            RunningField::General(k) => self.put_general(k, word),
            RunningField::Lr => self.core.registers.lr = word,
            RunningField::Pc => self.core.registers.pc = word / 2 * 2,
            RunningField::Xpsr => put_psr(&mut self.core.registers, word),
            RunningField::MonitorSize => self.put_held_size(word),
            RunningField::MonitorAddress => self.put_held_address(word),
        }
    }

    /// Writes RBAR of a region of an MPU, by RNR, which stays.
    fn put_mpu_rbar(&mut self, side: Side, k: u8, word: u32)
        requires { IsFresh self.old }
        ensures { self.new ≡ banked_written self.old side (banked.MpuRbar k) word }
    {
        let rnr = self.bus.mpu_register(side, MpuRegister::Rnr);
        self.bus
            .set_mpu_register(side, MpuRegister::Rnr, u32::from(k));
        self.bus.set_mpu_register(side, MpuRegister::Rbar(0), word);
        self.bus.set_mpu_register(side, MpuRegister::Rnr, rnr);
    }

    fn put_mpu_rlar(&mut self, side: Side, k: u8, word: u32)
        requires { IsFresh self.old }
        ensures { self.new ≡ banked_written self.old side (banked.MpuRlar k) word }
    {
        let rnr = self.bus.mpu_register(side, MpuRegister::Rnr);
        self.bus
            .set_mpu_register(side, MpuRegister::Rnr, u32::from(k));
        self.bus.set_mpu_register(side, MpuRegister::Rlar(0), word);
        self.bus.set_mpu_register(side, MpuRegister::Rnr, rnr);
    }

    fn put_csr(&mut self, side: Side, word: u32)
        ensures { self.new ≡ banked_written self.old side banked.SystCsr word }
    {
        let mut timer = self.exceptions.timer(side);
        timer.csr = word & SYST_CSR_BITS;
        self.exceptions.put_timer(side, timer);
    }

    fn put_rvr(&mut self, side: Side, word: u32)
        ensures { self.new ≡ banked_written self.old side banked.SystRvr word }
    {
        let mut timer = self.exceptions.timer(side);
        timer.rvr = word % 0x100_0000;
        self.exceptions.put_timer(side, timer);
    }

    fn put_cvr(&mut self, side: Side, word: u32)
        ensures { self.new ≡ banked_written self.old side banked.SystCvr word }
    {
        let mut timer = self.exceptions.timer(side);
        timer.cvr = word % 0x100_0000;
        self.exceptions.put_timer(side, timer);
    }

    fn put_banked(&mut self, side: Side, field: BankedField, word: u32)
        requires { IsFresh self.old }
        ensures { self.new ≡ banked_written self.old side field word }
    {
        match field {
            BankedField::Msp => self.core.set_msp(side, word),
            BankedField::Psp => self.core.set_psp(side, word),
            BankedField::Msplim => self.core.set_msplim(side, word),
            BankedField::Psplim => self.core.set_psplim(side, word),
            BankedField::Primask => self.core.set_primask(side, word),
            BankedField::Basepri => self.core.set_basepri(side, word),
            BankedField::Faultmask => self.core.set_faultmask(side, word),
            BankedField::Control => self.core.set_control(side, word),
            BankedField::Vtor => self.core.set_vtor(side, word),
            BankedField::Ccr => self.core.set_ccr(side, word),
            BankedField::Ufsr => self.core.set_ufsr(side, word),
            BankedField::Mmfsr => self.core.set_mmfsr(side, word),
            BankedField::Mmfar => self.core.set_mmfar(side, word),
            BankedField::Prigroup => self.exceptions.set_grouping(side, (word % 8) as u8),
            BankedField::MpuCtrl => self.bus.set_mpu_register(side, MpuRegister::Ctrl, word),
            BankedField::MpuRnr => self.bus.set_mpu_register(side, MpuRegister::Rnr, word),
            BankedField::Mair0 => self.bus.set_mpu_register(side, MpuRegister::Mair0, word),
            BankedField::Mair1 => self.bus.set_mpu_register(side, MpuRegister::Mair1, word),
            BankedField::MpuRbar(k) => self.put_mpu_rbar(side, k, word),
            BankedField::MpuRlar(k) => self.put_mpu_rlar(side, k, word),
            BankedField::SystCsr => self.put_csr(side, word),
            BankedField::SystRvr => self.put_rvr(side, word),
            BankedField::SystCvr => self.put_cvr(side, word),
        }
    }

    /// Writes RBAR of a region of the SAU, by RNR, which stays.
    fn put_sau_rbar(&mut self, k: u8, word: u32)
        requires { IsFresh self.old }
        ensures { self.new ≡ shared_written self.old (shared.SauRbar k) word }
    {
        let rnr = self.bus.sau_register(SauRegister::Rnr);
        self.bus.set_sau_register(SauRegister::Rnr, u32::from(k));
        self.bus.set_sau_register(SauRegister::Rbar, word);
        self.bus.set_sau_register(SauRegister::Rnr, rnr);
    }

    fn put_sau_rlar(&mut self, k: u8, word: u32)
        requires { IsFresh self.old }
        ensures { self.new ≡ shared_written self.old (shared.SauRlar k) word }
    {
        let rnr = self.bus.sau_register(SauRegister::Rnr);
        self.bus.set_sau_register(SauRegister::Rnr, u32::from(k));
        self.bus.set_sau_register(SauRegister::Rlar, word);
        self.bus.set_sau_register(SauRegister::Rnr, rnr);
    }

    fn put_shared(&mut self, field: SharedField, word: u32)
        requires { IsFresh self.old }
        ensures { self.new ≡ shared_written self.old field word }
    {
        match field {
            SharedField::SauCtrl => self.bus.set_sau_register(SauRegister::Ctrl, word),
            SharedField::SauRnr => self.bus.set_sau_register(SauRegister::Rnr, word),
            SharedField::SauRbar(k) => self.put_sau_rbar(k, word),
            SharedField::SauRlar(k) => self.put_sau_rlar(k, word),
            SharedField::Sfsr => self.core.set_sfsr(word),
            SharedField::Sfar => self.core.set_sfar(word),
            SharedField::Bfsr => self.core.set_bfsr(word),
            SharedField::Bfar => self.core.set_bfar(word),
            SharedField::Hfsr => self.core.set_hfsr(word),
            SharedField::Pris => self.exceptions.set_pris(word % 2 == 1),
            SharedField::Bfhfnmins => self.exceptions.set_fault_side(word % 2 == 1),
        }
    }

    /// Writes a field, and tells whether it holds the word.
    pub(crate) fn put_field(&mut self, field: Field, word: u32) -> bool
        requires { IsFresh self.old }
        ensures put { self.new ≡ written self.old field word }
        ensures fits { result ≡ fits self.old field word }
        ensures fresh { IsFresh self.new }
    {
        match field {
            Field::Running(field) => self.put_running(field, word),
            Field::Banked(side, field) => self.put_banked(side, field, word),
            Field::Shared(field) => self.put_shared(field, word),
        }
        word_of(&self.lent(), field) == word
    }

    /// Writes the slot at a place, and tells whether it holds the word.
    pub(crate) fn put_slot(&mut self, place: usize, word: u32) -> bool
        requires { place < 272 }
        ensures put { self.new ≡ slot_written self.old place word }
        ensures fits { result ≡ slot_fits self.old place word }
    {
        let number = self.exceptions.slot_at(place).number;
        let fixed = number == NMI || number == HARD_FAULT;
        let external = place >= FIRST_INTERRUPT_PLACE;
        let slot = SlotState {
            pending: word / 0x100 % 2 == 1,
            active: word / 0x200 % 2 == 1,
            enabled: !is_always_enabled(number) && word / 0x400 % 2 == 1,
            priority: if fixed { 0 } else { (word % 0x100) as u8 },
            target: if external {
                side_from(word / 0x800)
            } else {
                Side::Secure
            },
        };
        self.exceptions.put_at(place, slot);
        slot_word(&self.lent(), place) == word
    }

    /// Writes a register of a channel, and tells whether it holds the word.
    pub(crate) fn put_channel(&mut self, field: ChannelField, word: u32) -> bool
        ensures put { self.new ≡ channel_written self.old field word }
        ensures fits { result ≡ channel_fits self.old field word }
    {
        match field.side {
            Side::Secure => {
                let channel = self.core.status.s.channel;
                self.core.status.s.channel = channel_put(channel, field.register, word);
            }
            Side::NonSecure => {
                let channel = self.core.status.ns.channel;
                self.core.status.ns.channel = channel_put(channel, field.register, word);
            }
        }
        channel_word(&self.lent(), field) == word
    }
}
