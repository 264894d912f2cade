//! Steps that are taken back by a history.

ghost use Rattle.std.specs.Prelude.{◌≤◌};

use std::alloc::Global;
use std::test::Fail;
use tz_asm::assemble;
use tz_board::demo_board;
use tz_core::Machine;
use tz_model::{Report, Size};
use tz_undo::History;

/// Secure code that counts in R0, and puts each count onto the stack, by three steps.
static COUNTING: &str = ".org 0x10000000
.word 0x30001000
.word 0x10000009
again: adds r0, r0, #1
 push {r0}
 b again
";

/// Non-secure code that isn't reached.
static NOTHING: &str = ".org 0x00200000
.word 0
";

/// A history of a machine that counts, which keeps so many steps.
fn counting(alloc: Global, kept: u32) -> Result<History, Fail>
    requires some { 1 ≤ kept }
    requires few { kept ≤ 1000 }
{
    let board = demo_board(alloc)?;
    let secure = assemble(alloc, COUNTING.as_bytes()).ok().ok_or("source")?;
    let nonsecure = assemble(alloc, NOTHING.as_bytes()).ok().ok_or("source")?;
    let machine = Machine::new(alloc, &board, &secure, &nonsecure)?;
    let history = History::new(alloc, machine, &board, kept)
        .ok()
        .ok_or("memory")?;
    Ok(history)
}

/// PC, R0, and the first two words of the stack.
fn place_of(history: &History) -> (u32, u32, u32, u32) {
    let machine = history.machine();
    let registers = &machine.core().registers;
    let word = |addr: u32| machine.bus().read(addr, Size::Word).unwrap_or(u32::MAX);
    (
        registers.pc,
        registers.general[0],
        word(0x3000_0ffc),
        word(0x3000_0ff8),
    )
}

#[test]
fn two_of_three_steps_are_taken_back(rt: HostRuntime) -> Result<(), Fail> {
    let mut history = counting(rt.alloc(), 2)?;
    history.step(&[]);
    history.step(&[]);
    history.step(&[]);
    assert_eq!(rt; history.depth(), 2);
    assert_eq!(rt; place_of(&history), (0x1000_0008, 1, 1, 0));
    assert!(rt; history.back());
    assert_eq!(rt; place_of(&history), (0x1000_000c, 1, 1, 0));
    assert!(rt; history.back());
    assert_eq!(rt; place_of(&history), (0x1000_000a, 1, 0, 0));
    assert!(rt; !history.back());
    assert_eq!(rt; place_of(&history), (0x1000_000a, 1, 0, 0));
    assert_eq!(rt; history.depth(), 0);
    Ok(())
}

#[test]
fn a_thousand_of_more_steps_are_taken_back(rt: HostRuntime) -> Result<(), Fail> {
    let mut history = counting(rt.alloc(), 1000)?;
    let mut report = Report::new();
    for _made in 0..1003 {
        history.step_into(&[], &mut report);
    }
    assert_eq!(rt; history.depth(), 1000);
    assert_eq!(rt; place_of(&history), (0x1000_000a, 335, 1, 2));
    for _undone in 0..1000 {
        assert!(rt; history.back());
    }
    assert_eq!(rt; place_of(&history), (0x1000_0008, 1, 1, 0));
    assert!(rt; !history.back());
    Ok(())
}
