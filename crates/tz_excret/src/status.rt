//! The status bits and the addresses that faults set.

ghost use Rattle.std.specs.Prelude.{◌≡◌};
ghost use Rattle.tz_frames.specs.Status.{with_ufsr, with_mmfsr, with_mmfar, with_bfsr, with_bfar, with_hfsr, with_sfsr, with_sfar, with_bits, with_address, with_effect, status_after, word_status, frame_status};

use crate::effect::{effect_of, word_effect};
use tz_frames::{FaultAddress, FaultEffect, FaultException, StackFault};
use tz_model::{Fault, Side};
use tz_regs::Status;

/// Sets bits of UFSR of a side.
fn set_ufsr(status: &mut Status, side: Side, bits: u32)
    ensures { status.new ≡ with_ufsr side bits status.old }
{
    match side {
        Side::Secure => status.s.ufsr = status.s.ufsr | bits,
        Side::NonSecure => status.ns.ufsr = status.ns.ufsr | bits,
    }
}

/// Sets bits of MMFSR of a side.
fn set_mmfsr(status: &mut Status, side: Side, bits: u32)
    ensures { status.new ≡ with_mmfsr side bits status.old }
{
    match side {
        Side::Secure => status.s.mmfsr = status.s.mmfsr | bits,
        Side::NonSecure => status.ns.mmfsr = status.ns.mmfsr | bits,
    }
}

/// Writes MMFAR of a side.
fn set_mmfar(status: &mut Status, side: Side, address: u32)
    ensures { status.new ≡ with_mmfar side address status.old }
{
    match side {
        Side::Secure => status.s.mmfar = address,
        Side::NonSecure => status.ns.mmfar = address,
    }
}

/// Sets bits of BFSR.
fn set_bfsr(status: &mut Status, bits: u32)
    ensures { status.new ≡ with_bfsr bits status.old }
{
    status.bus.bfsr = status.bus.bfsr | bits;
}

/// Writes BFAR.
fn set_bfar(status: &mut Status, address: u32)
    ensures { status.new ≡ with_bfar address status.old }
{
    status.bus.bfar = address;
}

/// Sets bits of HFSR.
pub(crate) fn set_hfsr(status: &mut Status, bits: u32)
    ensures { status.new ≡ with_hfsr bits status.old }
{
    status.bus.hfsr = status.bus.hfsr | bits;
}

/// Sets bits of SFSR.
fn set_sfsr(status: &mut Status, bits: u32)
    ensures { status.new ≡ with_sfsr bits status.old }
{
    status.security.sfsr = status.security.sfsr | bits;
}

/// Writes SFAR.
fn set_sfar(status: &mut Status, address: u32)
    ensures { status.new ≡ with_sfar address status.old }
{
    status.security.sfar = address;
}

/// Sets bits of the status register that an exception of a side has.
fn set_bits(status: &mut Status, exception: FaultException, side: Side, bits: u32)
    ensures { status.new ≡ with_bits exception side bits status.old }
{
    match exception {
        FaultException::MemManage => set_mmfsr(status, side, bits),
        FaultException::BusFault => set_bfsr(status, bits),
        FaultException::UsageFault => set_ufsr(status, side, bits),
        FaultException::HardFault => set_hfsr(status, bits),
        FaultException::SecureFault => set_sfsr(status, bits),
        FaultException::SVCall => {}
    }
}

/// Writes an address to its register, of a side.
fn set_address(status: &mut Status, address: FaultAddress, side: Side)
    ensures { status.new ≡ with_address address side status.old }
{
    match address {
        FaultAddress::Unwritten => {}
        FaultAddress::Mmfar(address) => set_mmfar(status, side, address),
        FaultAddress::Bfar(address) => set_bfar(status, address),
        FaultAddress::Sfar(address) => set_sfar(status, address),
    }
}

/// Sets what a line of the table of faults sets.
fn set_effect(status: &mut Status, effect: FaultEffect)
    ensures { status.new ≡ with_effect effect status.old }
{
    set_bits(status, effect.exception, effect.side, effect.status);
    set_address(status, effect.address, effect.side);
}

/// Sets what a fault of code of a side sets: its bit, and its address with the bit that tells it.
pub(crate) fn set_status(status: &mut Status, side: Side, fault: Fault)
    ensures { status.new ≡ status_after side fault status.old }
{
    set_effect(status, effect_of(side, fault));
}

/// Sets what a word of a frame of the stack of a side sets that can't be accessed.
fn set_word_status(status: &mut Status, stacking: bool, side: Side, fault: Fault)
    ensures { status.new ≡ word_status stacking side fault status.old }
{
    set_effect(status, word_effect(stacking, side, fault));
}

/// Sets what a frame of the stack of a side sets that isn't written or read. No address register tells where.
pub(crate) fn set_frame_status(status: &mut Status, stacking: bool, side: Side, fault: StackFault)
    ensures { status.new ≡ frame_status stacking side fault status.old }
{
    match fault {
        StackFault::Limit(of) => set_status(status, side, Fault::StackLimit(of)),
        StackFault::Access(fault) => set_word_status(status, stacking, side, fault),
        StackFault::Signature => set_status(status, side, Fault::Signature),
    }
}
