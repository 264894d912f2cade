//! The words of a machine, each by its index: fields in their order, slots by their places, the channels of a mover,
//! memory.

ghost use Rattle.std.specs.Prelude.{◌≡◌, ◌<◌, ◌≤◌, ◌+◌, ◌*◌, ◌/◌, ◌^◌, ℕ, true, Some, slice_get};
ghost use Rattle.tz_frames.specs.Registers.{psr_word};
ghost use Rattle.tz_model.specs.Board.{in_region, are_regions};
ghost use Rattle.tz_state.specs.Access.{is_mapped};
ghost use Rattle.tz_state.specs.Memory.{word_at};
ghost use Rattle.tz_state.specs.State.{mpu_of};
ghost use Rattle.tz_state.specs.UnitRegisters.{bounds_at};
ghost use Rattle.tz_fields.specs.declared.fields.RunningField.TheVariants as variants;
ghost use Rattle.tz_fields.specs.Fields.{running_fields, banked_fields, shared_fields, fields, slot_places, channel_fields};
ghost use Rattle.tz_fields.specs.StateWords.{side_number, sleep_number, size_number, running_word, banked_word, shared_word, word_of, slot_word, channel_word, memory_words, state_words, field_count, slot_count, channel_count, memory_count, word_count};

use crate::fields::{BankedField, ChannelField, Field, RunningField, SharedField};
use tz_frames::return_bits::{RETPSR_IT_HIGH, RETPSR_IT_LOW, RETPSR_T};
use tz_model::{Board, Channel, Region, Side, Size, Sleep};
use tz_nvic::FIRST_INTERRUPT_PLACE;
use tz_regs::Registers;
use tz_state::{Bounds, MoverRegister, MpuRegister, SauRegister};
use tz_tell::LentState;

const RUNNING: [RunningField; 22] = [
    RunningField::Side,
    RunningField::Locked,
    RunningField::Sleep,
    RunningField::Event,
    RunningField::General(0),
    RunningField::General(1),
    RunningField::General(2),
    RunningField::General(3),
    RunningField::General(4),
    RunningField::General(5),
    RunningField::General(6),
    RunningField::General(7),
    RunningField::General(8),
    RunningField::General(9),
    RunningField::General(10),
    RunningField::General(11),
    RunningField::General(12),
    RunningField::Lr,
    RunningField::Pc,
    RunningField::Xpsr,
    RunningField::MonitorSize,
    RunningField::MonitorAddress,
];

/// What a side has before the regions of its MPU.
const BANKED_FIRST: [BankedField; 18] = [
    BankedField::Msp,
    BankedField::Psp,
    BankedField::Msplim,
    BankedField::Psplim,
    BankedField::Primask,
    BankedField::Basepri,
    BankedField::Faultmask,
    BankedField::Control,
    BankedField::Vtor,
    BankedField::Ccr,
    BankedField::Ufsr,
    BankedField::Mmfsr,
    BankedField::Mmfar,
    BankedField::Prigroup,
    BankedField::MpuCtrl,
    BankedField::MpuRnr,
    BankedField::Mair0,
    BankedField::Mair1,
];

/// What it has behind them.
const BANKED_LAST: [BankedField; 3] = [
    BankedField::SystCsr,
    BankedField::SystRvr,
    BankedField::SystCvr,
];

/// What both share before the regions of the SAU.
const SHARED_FIRST: [SharedField; 2] = [SharedField::SauCtrl, SharedField::SauRnr];

/// What they share behind them.
const SHARED_LAST: [SharedField; 7] = [
    SharedField::Sfsr,
    SharedField::Sfar,
    SharedField::Bfsr,
    SharedField::Bfar,
    SharedField::Hfsr,
    SharedField::Pris,
    SharedField::Bfhfnmins,
];

/// The places of the system's slots.
const SYSTEM_PLACES: [usize; 15] = [4, 6, 7, 8, 9, 10, 12, 13, 14, 22, 23, 28, 29, 30, 31];

/// The registers of the channels of a mover.
const CHANNELS: [ChannelField; 8] = [
    ChannelField {
        side: Side::Secure,
        register: MoverRegister::Src,
    },
    ChannelField {
        side: Side::Secure,
        register: MoverRegister::Dst,
    },
    ChannelField {
        side: Side::Secure,
        register: MoverRegister::Count,
    },
    ChannelField {
        side: Side::Secure,
        register: MoverRegister::Ctrl,
    },
    ChannelField {
        side: Side::NonSecure,
        register: MoverRegister::Src,
    },
    ChannelField {
        side: Side::NonSecure,
        register: MoverRegister::Dst,
    },
    ChannelField {
        side: Side::NonSecure,
        register: MoverRegister::Count,
    },
    ChannelField {
        side: Side::NonSecure,
        register: MoverRegister::Ctrl,
    },
];

// ---- the order

fn running_field(index: usize) -> RunningField
    requires { index < 22 }
    ensures { slice_get running_fields index ≡ Some result }
{
    RUNNING[index]
}

/// What a side with so many regions of its MPU has at an index.
#[tactic(auto, using(crate::proofs::Order::banked_before, crate::proofs::Order::banked_region, crate::proofs::Order::banked_behind, crate::proofs::Order::mpu_rbar_at, crate::proofs::Order::mpu_rlar_at))]
fn banked_field(index: usize, regions: u8) -> BankedField
    requires { index < 21 + 2 * regions }
    ensures { slice_get (banked_fields regions) index ≡ Some result }
{
    let last = BANKED_FIRST.len() + 2 * usize::from(regions);
    if index < BANKED_FIRST.len() {
        BANKED_FIRST[index]
    } else if index < last {
        let word = index - BANKED_FIRST.len();
        let region = (word / 2) as u8;
        if word % 2 == 0 {
            BankedField::MpuRbar(region)
        } else {
            BankedField::MpuRlar(region)
        }
    } else {
        BANKED_LAST[index - last]
    }
}

/// What both sides share at an index, with so many regions of the SAU.
#[tactic(auto, using(crate::proofs::Order::shared_before, crate::proofs::Order::shared_region, crate::proofs::Order::shared_behind, crate::proofs::Order::sau_rbar_at, crate::proofs::Order::sau_rlar_at))]
fn shared_field(index: usize, regions: u8) -> SharedField
    requires { index < 9 + 2 * regions }
    ensures { slice_get (shared_fields regions) index ≡ Some result }
{
    let last = SHARED_FIRST.len() + 2 * usize::from(regions);
    if index < SHARED_FIRST.len() {
        SHARED_FIRST[index]
    } else if index < last {
        let word = index - SHARED_FIRST.len();
        let region = (word / 2) as u8;
        if word % 2 == 0 {
            SharedField::SauRbar(region)
        } else {
            SharedField::SauRlar(region)
        }
    } else {
        SHARED_LAST[index - last]
    }
}

/// How many words a side has, with so many regions of its MPU.
fn banked_count(regions: u8) -> usize
    ensures { result ≡ 21 + 2 * regions }
{
    21 + 2 * usize::from(regions)
}

/// How many fields have words.
pub(crate) fn field_count(board: &Board) -> usize
    ensures is { result ≡ field_count board.now }
    ensures few { result < 256 }
{
    73 + 2
        * (usize::from(board.mpu_secure)
            + usize::from(board.mpu_nonsecure)
            + usize::from(board.sau_regions))
}

/// The field of an index.
#[tactic(auto, using(crate::proofs::Order::running_here, crate::proofs::Order::secure_here, crate::proofs::Order::nonsecure_here, crate::proofs::Order::shared_here))]
pub(crate) fn field_at(board: &Board, index: usize) -> Field
    requires { index < field_count board.now }
    ensures { slice_get (fields board.now) index ≡ Some result }
{
    let nonsecure = RUNNING.len() + banked_count(board.mpu_secure);
    let shared = nonsecure + banked_count(board.mpu_nonsecure);
    if index < RUNNING.len() {
        Field::Running(running_field(index))
    } else if index < nonsecure {
        let field = banked_field(index - RUNNING.len(), board.mpu_secure);
        Field::Banked(Side::Secure, field)
    } else if index < shared {
        let field = banked_field(index - nonsecure, board.mpu_nonsecure);
        Field::Banked(Side::NonSecure, field)
    } else {
        Field::Shared(shared_field(index - shared, board.sau_regions))
    }
}

/// How many slots there are.
pub(crate) fn slot_count(board: &Board) -> usize
    ensures is { result ≡ slot_count board.now }
    ensures few { result < 256 }
{
    SYSTEM_PLACES.len() + usize::from(board.interrupts)
}

/// The place of a slot by its index among those that there are.
#[tactic(auto, using(crate::proofs::Order::system_here, crate::proofs::Order::interrupt_here))]
pub(crate) fn slot_place(board: &Board, index: usize) -> usize
    requires { index < slot_count board.now }
    ensures is { slice_get (slot_places board.now.interrupts) index ≡ Some result }
    ensures few { result < 272 }
{
    let _interrupts = board.interrupts;
    if index < SYSTEM_PLACES.len() {
        SYSTEM_PLACES[index]
    } else {
        index - SYSTEM_PLACES.len() + FIRST_INTERRUPT_PLACE
    }
}

/// How many registers of channels have words.
pub(crate) fn channel_count(board: &Board) -> usize
    ensures is { result ≡ channel_count board.now }
    ensures few { result ≤ 8 }
{
    if board.mover { CHANNELS.len() } else { 0 }
}

/// The register of a channel by its index among them.
pub(crate) fn channel_field(board: &Board, index: usize) -> ChannelField
    requires { index < channel_count board.now }
    ensures { slice_get (channel_fields board.now.mover) index ≡ Some result }
{
    let _mover = board.mover;
    CHANNELS[index]
}

/// How many words a state of a board has.
pub fn word_count(board: &Board) -> u32
    ensures { result ≡ word_count board.now }
{
    let mut memory = 0;
    for region in &board.regions {
        memory += region.size / 4;
    }
    (field_count(board) + slot_count(board) + channel_count(board)) as u32 + memory
}

// ---- values as numbers

/// The number of a side in a word: 0 for Secure.
pub(crate) fn side_number(side: Side) -> u32
    ensures { result ≡ side_number side }
{
    match side {
        Side::Secure => 0,
        Side::NonSecure => 1,
    }
}

fn sleep_number(sleep: Sleep) -> u32
    ensures { result ≡ sleep_number sleep }
{
    match sleep {
        Sleep::Awake => 0,
        Sleep::Wfi => 1,
        Sleep::Wfe => 2,
    }
}

fn size_number(size: Size) -> u32
    ensures { result ≡ size_number size }
{
    match size {
        Size::Byte => 1,
        Size::Half => 2,
        Size::Word => 4,
    }
}

/// xPSR.
fn psr_word(registers: &Registers) -> u32
    ensures { result ≡ psr_word registers.now }
{
    let it = u32::from(registers.it);
    let t = u32::from(registers.t);
    registers.apsr.word()
        + RETPSR_IT_LOW * (it % 4)
        + RETPSR_T * t
        + RETPSR_IT_HIGH * (it / 4)
        + u32::from(registers.ipsr)
}

/// R0 to R12.
fn general_word(state: &LentState, k: u8) -> u32
    ensures { result ≡ running_word state.now (variants.General k) }
{
    match state.core().registers.general.get(usize::from(k)) {
        Some(value) => *value,
        None => 0,
    }
}

fn running_word(state: &LentState, field: RunningField) -> u32
    ensures { result ≡ running_word state.now field }
{
    match field {
        RunningField::Side => side_number(state.core().run.side),
        RunningField::Locked => u32::from(state.core().run.locked),
        RunningField::Sleep => sleep_number(state.core().run.sleep),
        RunningField::Event => u32::from(state.core().event),
        RunningField::General(k) => general_word(state, k),
        RunningField::Lr => state.core().registers.lr,
        RunningField::Pc => state.core().registers.pc,
        RunningField::Xpsr => psr_word(&state.core().registers),
        RunningField::MonitorSize => match state.bus().monitor() {
            None => 0,
            Some((_, size)) => size_number(size),
        },
        RunningField::MonitorAddress => match state.bus().monitor() {
            None => 0,
            Some((addr, _)) => addr,
        },
    }
}

/// RBAR and RLAR of a region of an MPU, zeros where it isn't there.
fn mpu_bounds(state: &LentState, side: Side, k: u8) -> Bounds
    ensures { result ≡ bounds_at (mpu_of side state.now.bus).regions k }
{
    match state.bus().mpu(side).region(k) {
        None => Bounds { rbar: 0, rlar: 0 },
        Some((rbar, rlar)) => Bounds { rbar, rlar },
    }
}

/// Those of a region of the SAU.
fn sau_bounds(state: &LentState, k: u8) -> Bounds
    ensures { result ≡ bounds_at state.now.bus.sau.regions k }
{
    match state.bus().sau().region(k) {
        None => Bounds { rbar: 0, rlar: 0 },
        Some((rbar, rlar)) => Bounds { rbar, rlar },
    }
}

fn banked_word(state: &LentState, side: Side, field: BankedField) -> u32
    ensures { result ≡ banked_word state.now side field }
{
    match field {
        BankedField::Msp => state.core().msp(side),
        BankedField::Psp => state.core().psp(side),
        BankedField::Msplim => state.core().msplim(side),
        BankedField::Psplim => state.core().psplim(side),
        BankedField::Primask => state.core().primask(side),
        BankedField::Basepri => state.core().basepri(side),
        BankedField::Faultmask => state.core().faultmask(side),
        BankedField::Control => state.core().control(side),
        BankedField::Vtor => state.core().vtor(side),
        BankedField::Ccr => state.core().ccr(side),
        BankedField::Ufsr => state.core().ufsr(side),
        BankedField::Mmfsr => state.core().mmfsr(side),
        BankedField::Mmfar => state.core().mmfar(side),
        BankedField::Prigroup => u32::from(state.exceptions().grouping(side)),
        BankedField::MpuCtrl => state.bus().mpu_register(side, MpuRegister::Ctrl),
        BankedField::MpuRnr => state.bus().mpu_register(side, MpuRegister::Rnr),
        BankedField::Mair0 => state.bus().mpu_register(side, MpuRegister::Mair0),
        BankedField::Mair1 => state.bus().mpu_register(side, MpuRegister::Mair1),
        BankedField::MpuRbar(k) => mpu_bounds(state, side, k).rbar,
        BankedField::MpuRlar(k) => mpu_bounds(state, side, k).rlar,
        BankedField::SystCsr => state.exceptions().timer(side).csr,
        BankedField::SystRvr => state.exceptions().timer(side).rvr,
        BankedField::SystCvr => state.exceptions().timer(side).cvr,
    }
}

fn shared_word(state: &LentState, field: SharedField) -> u32
    ensures { result ≡ shared_word state.now field }
{
    match field {
        SharedField::SauCtrl => state.bus().sau_register(SauRegister::Ctrl),
        SharedField::SauRnr => state.bus().sau_register(SauRegister::Rnr),
        SharedField::SauRbar(k) => sau_bounds(state, k).rbar,
        SharedField::SauRlar(k) => sau_bounds(state, k).rlar,
        SharedField::Sfsr => state.core().sfsr(),
        SharedField::Sfar => state.core().sfar(),
        SharedField::Bfsr => state.core().bfsr(),
        SharedField::Bfar => state.core().bfar(),
        SharedField::Hfsr => state.core().hfsr(),
        SharedField::Pris => u32::from(state.exceptions().pris()),
        SharedField::Bfhfnmins => u32::from(state.exceptions().fault_side()),
    }
}

/// The word of a field.
pub(crate) fn word_of(state: &LentState, field: Field) -> u32
    ensures { result ≡ word_of state.now field }
{
    match field {
        Field::Running(field) => running_word(state, field),
        Field::Banked(side, field) => banked_word(state, side, field),
        Field::Shared(field) => shared_word(state, field),
    }
}

/// The word of the slot at a place.
pub(crate) fn slot_word(state: &LentState, place: usize) -> u32
    requires { place < 272 }
    ensures { result ≡ slot_word state.now.exceptions place }
{
    let slot = state.exceptions().at(place);
    let enabled = state.exceptions().is_enabled(place);
    u32::from(slot.priority)
        + 0x100 * u32::from(slot.pending)
        + 0x200 * u32::from(slot.active)
        + 0x400 * u32::from(enabled)
        + 0x800 * side_number(slot.target)
}

/// The word of a register of a channel.
pub(crate) fn channel_word(state: &LentState, field: ChannelField) -> u32
    ensures { result ≡ channel_word state.now field }
{
    let channel: Channel = state.core().side_status(field.side).channel;
    match field.register {
        MoverRegister::Src => channel.src,
        MoverRegister::Dst => channel.dst,
        MoverRegister::Count => u32::from(channel.count),
        MoverRegister::Ctrl => channel.ctrl,
    }
}

/// A word of a region, all of whose bytes are in memory.
fn region_word(state: &LentState, region: &Region, index: u32) -> u32
    requires there { index < region.now.size / 4 }
    requires low { region.now.base + region.now.size < 2 ^ 32 }
    requires mapped { (a : ℕ) → in_region region.now a ≡ true → is_mapped state.now.bus.board.regions a ≡ true }
    ensures { result ≡ word_at state.now.bus.memory (region.now.base + 4 * index) }
{
    match state.bus().read(region.base + 4 * index, Size::Word) {
        Ok(word) => word,
        Err(_) => 0,
    }
}

/// A word of memory by its index among those of the board's regions.
fn memory_word(state: &LentState, regions: &[Region], index: u32) -> Option<u32>
    requires board { regions.now ≡ state.now.bus.board.regions }
    requires blocks { are_regions regions.now ≡ true }
    ensures { result ≡ slice_get (memory_words state.now.bus.memory regions.now) index }
{
    let mut left = index;
    for region in regions {
        let count = region.size / 4;
        if left < count {
            return Some(region_word(state, region, left));
        }
        left -= count;
    }
    None
}

/// The word of an index, of those that tell all of the machine: fields, slots, the channels of a mover, memory. None
/// exactly past their count.
#[tactic(auto, using(crate::proofs::Indexed::field_told, crate::proofs::Indexed::slot_told, crate::proofs::Indexed::channel_told, crate::proofs::Indexed::memory_told))]
pub fn word(state: &LentState, index: u32) -> Option<u32>
    ensures { result ≡ slice_get (state_words state.now) index }
{
    let board = state.board();
    let fields = field_count(board) as u32;
    let slots = slot_count(board) as u32;
    if index < fields {
        return Some(word_of(state, field_at(board, index as usize)));
    }
    if index - fields < slots {
        return Some(slot_word(state, slot_place(board, (index - fields) as usize)));
    }
    let channels = channel_count(board) as u32;
    let behind = index - fields - slots;
    if behind < channels {
        return Some(channel_word(state, channel_field(board, behind as usize)));
    }
    memory_word(state, &board.regions, behind - channels)
}
