//! Faults, outcomes of instructions, and reports of steps.
//!
//! A report tells what a step did in the terms of the trace: which side ran, what ran or was taken,
//! which registers differ, what was stored, and how the step crossed out of Secure state.

ghost use Rattle.std.specs.Prelude.{◌≡◌, []};

use arrayvec::ArrayVec;
use tz_table::{Code, Side, Size};

/// A fault, by the status bit that it sets (DDI0553, chapter B3.9), with the side of the exception
/// and the address where it has one.
#[derive(Clone, Copy)]
pub enum Fault {
    /// UNDEFINSTR.
    Undef,
    /// INVSTATE.
    InvState,
    /// INVPC.
    InvPc(Side),
    /// NOCP.
    NoCp,
    /// STKOF.
    StackLimit(Side),
    /// UNALIGNED.
    Unaligned,
    /// DIVBYZERO.
    DivZero,
    /// DACCVIOL of the MPU of a side, with MMFAR.
    DataAccess(u32, Side),
    /// IACCVIOL of the MPU of a side.
    Exec(Side),
    /// PRECISERR, with BFAR.
    Precise(u32),
    /// IBUSERR.
    ExecBus,
    /// AUVIOL, with SFAR.
    Violation(u32),
    /// INVEP.
    EntryPoint,
    /// INVTRAN.
    Transition,
    /// INVER.
    ExcReturn,
    /// INVIS.
    Signature,
    /// DEBUGEVT.
    Breakpoint,
    /// SVCall, which is no fault but is pended as one.
    Call,
}

/// An exception with the side that it is taken to.
#[derive(Clone, Copy)]
pub struct Slot {
    pub number: u16,
    pub side: Side,
}

/// What a script sets pending.
#[derive(Clone, Copy)]
pub enum ScriptEvent {
    /// External interrupt `N`, which is exception `16 + N`.
    Irq(u16),
    Nmi,
}

/// Whether a core sleeps, and what it waits for.
#[derive(Clone, Copy)]
pub enum Sleep {
    Awake,
    /// For an interrupt.
    Wfi,
    /// For an event.
    Wfe,
}

/// How an instruction goes on.
#[derive(Clone, Copy)]
pub enum Outcome {
    /// To the next instruction.
    Next,
    /// To this address, with T as it stands.
    Jump(u32),
    /// To what a target value says (DDI0553, `BXWritePC`).
    Exchange { target: u32, ns: bool },
    /// To Non-secure code that is called at a target (DDI0553, `BLXNS`).
    Call(u32),
    /// To sleep: for an event, or for an interrupt.
    Sleep { event: bool },
}

/// The kinds of crossing out of Secure state.
#[derive(Clone, Copy)]
pub enum CrossKind {
    Return,
    Call,
    ExcReturn,
    Chain,
    Preempt,
    Refused,
}

/// How a step crossed out: its kind, IPSR after it, and LR where an exception was taken.
#[derive(Clone, Copy)]
pub struct Way {
    pub kind: CrossKind,
    pub number: u16,
    pub lr: Option<u32>,
}

/// What a step was.
#[derive(Clone, Copy)]
pub enum StepKind {
    /// It ends locked.
    Locked,
    /// The core slept on.
    Idle,
    /// An exception was taken: IPSR and LR after the step.
    Taken { number: u16, lr: u32 },
    /// An instruction ran: its address and its code.
    Ran { pc: u32, code: Code },
}

/// A register that differs after a step: 0 to 12 are R0 to R12, 13 is SP, 14 is LR, 15 is APSR.
#[derive(Clone, Copy, Default)]
pub struct Change {
    pub name: u8,
    pub value: u32,
}

/// A store of an instruction.
#[derive(Clone, Copy)]
pub struct Store {
    pub addr: u32,
    pub size: Size,
    pub value: u32,
}

impl Default for Store {
    fn default() -> Self {
        Store {
            addr: 0,
            size: Size::Byte,
            value: 0,
        }
    }
}

/// What a trace shows of a step: what Non-secure code sees of it, or all.
#[derive(Clone, Copy)]
pub enum View {
    Ns,
    All,
}

/// What a step did.
#[derive(Drop)]
pub struct Report {
    /// The state in which the step starts and ends; a locked core counts as Secure.
    pub start: Side,
    pub end: Side,
    /// Whether the step looked at Secure state.
    pub touched: bool,
    /// How it crossed out of Secure state, where it did.
    pub way: Option<Way>,
    pub kind: StepKind,
    /// The registers that differ, in the order of their names.
    pub changes: ArrayVec<Change, 16>,
    /// The stores of the instruction, in order.
    pub stores: ArrayVec<Store, 16>,
}

impl Report {
    /// The report of a step that did nothing, to be filled in.
    pub fn new() -> Report
        ensures changes { result.changes.items ≡ [] }
        ensures stores { result.stores.items ≡ [] }
    {
        Report {
            start: Side::Secure,
            end: Side::Secure,
            touched: false,
            way: None,
            kind: StepKind::Idle,
            changes: ArrayVec::new(),
            stores: ArrayVec::new(),
        }
    }
}
