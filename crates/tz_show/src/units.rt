//! Both timers, and the regions of the SAU and of both MPUs that are enabled.

ghost use Rattle.std.specs.Prelude.{◌≡◌, ◌≤◌, ◌<◌, ◌+◌, ◌++◌, length};
ghost use Rattle.arrayvec.specs.ArrayString.{array_string_len};
ghost use Rattle.tz_show.specs.Units.{timer_rows, timers_text, span_text, sau_words, sau_line, sau_region_text, mpu_words, mpu_line, mpu_region_text, sau_text, mpu_text, side_mpu_text, mpus_text};
ghost use Rattle.tz_show.specs.Rows.{texts_below};

use crate::bits::BitNames;
use crate::rows::{Text, push_pair, push_row, push_where};
use tz_access::Bus;
use tz_model::{Profile, Side};
use tz_mpu::{Mpu, has_pxn};
use tz_nvic::{Exceptions, Timer};
use tz_sau::Sau;
use tz_state::unit_bits::{MPU_RBAR_AP_0, MPU_RBAR_AP_1, SAU_RLAR_NSC};
use tz_state::{Bounds, MpuRegister, SauRegister};
use tz_syntax::{push_decimal, push_hex_word};

/// The registers of both timers.
#[tactic(auto, unfolding(crate::specs::Units::timer_rows))]
fn push_timer_rows(text: &mut Text, s: Timer, ns: Timer)
    requires { array_string_len text.old + 264 ≤ 48000 }
    ensures bytes { text.new.bytes ≡ text.old.bytes ++ timer_rows s ns }
    ensures len { array_string_len text.new ≤ array_string_len text.old + 264 }
{
    push_row(text, "  SYST_CSR_S  ", s.csr, BitNames::SystCsr);
    push_pair(text, "  SYST_RVR_S  ", s.rvr, "  SYST_CVR_S  ", s.cvr);
    push_row(text, "  SYST_CSR_NS ", ns.csr, BitNames::SystCsr);
    push_pair(text, "  SYST_RVR_NS ", ns.rvr, "  SYST_CVR_NS ", ns.cvr);
}

/// The part of the page on both SysTicks.
#[tactic(auto, unfolding(crate::specs::Units::timers_text))]
pub fn push_timers(text: &mut Text, exceptions: &Exceptions)
    requires { array_string_len text.old + 273 ≤ 48000 }
    ensures bytes { text.new.bytes ≡ text.old.bytes ++ timers_text exceptions.now }
    ensures len { array_string_len text.new ≤ array_string_len text.old + 273 }
{
    text.push_str("\nSysTick\n");
    push_timer_rows(
        text,
        exceptions.timer(Side::Secure),
        exceptions.timer(Side::NonSecure),
    );
}

/// The number of a region, its first address and its last.
#[tactic(auto, unfolding(crate::specs::Units::span_text))]
fn push_span(text: &mut Text, k: u8, bounds: &Bounds)
    requires { array_string_len text.old + 31 ≤ 48000 }
    ensures bytes { text.new.bytes ≡ text.old.bytes ++ span_text k bounds.now }
    ensures len { array_string_len text.new ≤ array_string_len text.old + 31 }
{
    text.push_str("  ");
    push_decimal(text, u32::from(k));
    text.push_str("  ");
    push_hex_word(text, bounds.rbar / 32 * 32);
    text.push_str("-");
    push_hex_word(text, bounds.rlar / 32 * 32 + 31);
}

/// How the SAU attributes a region.
#[tactic(auto, unfolding(crate::specs::Units::sau_words))]
fn sau_words(bounds: &Bounds) -> &'static str
    ensures words { result.now ≡ sau_words bounds.now }
    ensures short { length result.now ≤ 19 }
{
    if bounds.rlar / SAU_RLAR_NSC % 2 == 1 {
        "  Secure, callable\n"
    } else {
        "  Non-secure\n"
    }
}

/// The line of a region of the SAU, where it is enabled.
#[tactic(auto, unfolding(crate::specs::Units::sau_line))]
fn push_sau_line(text: &mut Text, k: u8, bounds: &Bounds)
    requires { array_string_len text.old + 50 ≤ 48000 }
    ensures bytes { text.new.bytes ≡ text.old.bytes ++ sau_line k bounds.now }
    ensures len { array_string_len text.new ≤ array_string_len text.old + 50 }
{
    if bounds.rlar % 2 == 1 {
        push_span(text, k, bounds);
        text.push_str(sau_words(bounds));
    }
}

/// The line of a region of the SAU by its number, where there is one.
#[tactic(auto, unfolding(crate::specs::Units::sau_region_text))]
fn push_sau_region(text: &mut Text, sau: &Sau, k: u8)
    requires { array_string_len text.old + 50 ≤ 48000 }
    ensures bytes { text.new.bytes ≡ text.old.bytes ++ sau_region_text sau.now.sau.regions k }
    ensures len { array_string_len text.new ≤ array_string_len text.old + 50 }
{
    match sau.region(k) {
        None => {}
        Some((rbar, rlar)) => push_sau_line(text, k, &Bounds { rbar, rlar }),
    }
}

/// The lines of all regions of the SAU.
fn push_sau_regions(text: &mut Text, sau: &Sau)
    requires { array_string_len text.old + 400 ≤ 48000 }
    ensures bytes { text.new.bytes ≡ text.old.bytes ++ texts_below (sau_region_text sau.now.sau.regions) 8 }
    ensures len { array_string_len text.new ≤ array_string_len text.old + 400 }
{
    for k in 0..8u8 {
        push_sau_region(text, sau, k);
    }
}

/// The SAU.
#[tactic(auto, unfolding(crate::specs::Units::sau_text))]
fn push_sau_unit(text: &mut Text, sau: &Sau)
    requires { array_string_len text.old + 492 ≤ 48000 }
    ensures bytes { text.new.bytes ≡ text.old.bytes ++ sau_text sau.now.sau }
    ensures len { array_string_len text.new ≤ array_string_len text.old + 492 }
{
    text.push_str("\nSAU\n");
    push_row(
        text,
        "  SAU_CTRL    ",
        sau.value(SauRegister::Ctrl),
        BitNames::SauCtrl,
    );
    push_sau_regions(text, sau);
}

/// The part of the page on the SAU.
#[tactic(auto, unfolding(crate::specs::Units::sau_text))]
pub fn push_sau(text: &mut Text, bus: &Bus)
    requires { array_string_len text.old + 492 ≤ 48000 }
    ensures bytes { text.new.bytes ≡ text.old.bytes ++ sau_text bus.now.state.sau }
    ensures len { array_string_len text.new ≤ array_string_len text.old + 492 }
{
    push_sau_unit(text, bus.sau());
}

/// What an MPU permits in a region.
#[tactic(auto, unfolding(crate::specs::Units::mpu_words))]
fn push_mpu_words(text: &mut Text, profile: Profile, bounds: &Bounds)
    requires { array_string_len text.old + 23 ≤ 48000 }
    ensures bytes { text.new.bytes ≡ text.old.bytes ++ mpu_words profile bounds.now }
    ensures len { array_string_len text.new ≤ array_string_len text.old + 23 }
{
    if bounds.rbar / MPU_RBAR_AP_1 % 2 == 0 {
        text.push_str("  rw");
    } else {
        text.push_str("  ro");
    }
    if bounds.rbar / MPU_RBAR_AP_0 % 2 == 1 {
        text.push_str(" any");
    } else {
        text.push_str(" privileged");
    }
    push_where(text, bounds.rbar % 2 == 1, " xn");
    push_where(text, has_pxn(profile, bounds), " pxn");
    text.push_str("\n");
}

/// The line of a region of an MPU, where it is enabled.
#[tactic(auto, unfolding(crate::specs::Units::mpu_line))]
fn push_mpu_line(text: &mut Text, profile: Profile, k: u8, bounds: &Bounds)
    requires { array_string_len text.old + 54 ≤ 48000 }
    ensures bytes { text.new.bytes ≡ text.old.bytes ++ mpu_line profile k bounds.now }
    ensures len { array_string_len text.new ≤ array_string_len text.old + 54 }
{
    if bounds.rlar % 2 == 1 {
        push_span(text, k, bounds);
        push_mpu_words(text, profile, bounds);
    }
}

/// The line of a region of an MPU by its number, where there is one.
#[tactic(auto, unfolding(crate::specs::Units::mpu_region_text))]
fn push_mpu_region(text: &mut Text, profile: Profile, mpu: &Mpu, k: u8)
    requires { array_string_len text.old + 54 ≤ 48000 }
    ensures bytes { text.new.bytes ≡ text.old.bytes ++ mpu_region_text profile mpu.now.mpu.regions k }
    ensures len { array_string_len text.new ≤ array_string_len text.old + 54 }
{
    match mpu.region(k) {
        None => {}
        Some((rbar, rlar)) => push_mpu_line(text, profile, k, &Bounds { rbar, rlar }),
    }
}

/// The lines of all regions of an MPU.
fn push_mpu_regions(text: &mut Text, profile: Profile, mpu: &Mpu)
    requires { array_string_len text.old + 864 ≤ 48000 }
    ensures bytes { text.new.bytes ≡ text.old.bytes ++ texts_below (mpu_region_text profile mpu.now.mpu.regions) 16 }
    ensures len { array_string_len text.new ≤ array_string_len text.old + 864 }
{
    for k in 0..16u8 {
        push_mpu_region(text, profile, mpu, k);
    }
}

/// An MPU, by what stands before its CTRL.
#[tactic(auto, unfolding(crate::specs::Units::mpu_text))]
fn push_mpu(text: &mut Text, profile: Profile, mpu: &Mpu, head: &str)
    requires { array_string_len text.old + length head.now + 937 ≤ 48000 }
    ensures bytes { text.new.bytes ≡ text.old.bytes ++ mpu_text profile mpu.now.mpu head.now }
    ensures len { array_string_len text.new ≤ array_string_len text.old + length head.now + 937 }
{
    push_row(text, head, mpu.value(MpuRegister::Ctrl), BitNames::MpuCtrl);
    push_mpu_regions(text, profile, mpu);
}

/// The MPU of a side, by what stands before its CTRL.
#[tactic(auto, unfolding(crate::specs::Units::side_mpu_text))]
fn push_side_mpu(text: &mut Text, bus: &Bus, side: Side, head: &str)
    requires { array_string_len text.old + length head.now + 937 ≤ 48000 }
    ensures bytes { text.new.bytes ≡ text.old.bytes ++ side_mpu_text bus.now.state side head.now }
    ensures len { array_string_len text.new ≤ array_string_len text.old + length head.now + 937 }
{
    push_mpu(text, bus.board().profile, bus.mpu(side), head);
}

/// The part of the page on both MPUs.
#[tactic(auto, unfolding(crate::specs::Units::mpus_text))]
pub fn push_mpus(text: &mut Text, bus: &Bus)
    requires { array_string_len text.old + 1907 ≤ 48000 }
    ensures bytes { text.new.bytes ≡ text.old.bytes ++ mpus_text bus.now.state }
    ensures len { array_string_len text.new ≤ array_string_len text.old + 1907 }
{
    text.push_str("\nMPU\n");
    push_side_mpu(text, bus, Side::Secure, "  MPU_CTRL_S  ");
    push_side_mpu(text, bus, Side::NonSecure, "  MPU_CTRL_NS ");
}
