//! A job that is made from a number: what it runs, and when interrupts come.

ghost use Rattle.std.specs.Prelude.{◌≡◌, IfOk};
ghost use Rattle.tz_run.specs.Generated.{drawn, stirred, first_image, second_image, nonsecure_image, generated_events};

use crate::images::{EORS, ORRS, nonsecure_image, secure_image};
use std::alloc::{AllocError, Global};
use tz_board::Script;
use tz_model::{Image, ScriptEvent};

/// Two Secure images, a Non-secure image and a script, for the built-in board.
#[derive(Drop)]
pub struct Job {
    pub first: Image,
    pub second: Image,
    pub nonsecure: Image,
    pub script: Script,
}

/// The number that a draw makes of another.
fn stirred(number: u32) -> u32
    ensures { result ≡ stirred number }
{
    number.wrapping_mul(1_664_525).wrapping_add(1_013_904_223)
}

/// What a draw gives: the upper 16 bits of that number.
fn drawn(number: u32) -> u16
    ensures { result ≡ drawn number }
{
    (stirred(number) / 0x1_0000) as u16
}

/// Interrupt 0 again and again, 50 to 113 steps after the event before, while that is before step `steps`, and 10,000
/// times at most.
fn generated_events(
    alloc: Global,
    seed: u32,
    steps: u32,
) -> Result<Vec<(u32, ScriptEvent)>, AllocError>
    ensures { IfOk result (λ v. v.items ≡ generated_events seed steps) }
{
    let mut events = Vec::new(alloc);
    let mut number = stirred(stirred(seed));
    let mut last = 0;
    for _event in 0..10_000_u32 {
        let step = last + 50 + u32::from(drawn(number) % 64);
        if step >= steps {
            return Ok(events);
        }
        events.push((step, ScriptEvent::Irq(0)))?;
        number = stirred(number);
        last = step;
    }
    Ok(events)
}

/// The job of a number: two Secure images with a key each, of which Non-secure code is shown nothing, the Non-secure
/// image that calls them, and a script with an event now and then before step `steps`. Fails for want of memory alone.
pub fn make_job(alloc: Global, seed: u32, steps: u32) -> Result<Job, AllocError>
    ensures first { IfOk result (λ j. j.first ≡ first_image seed) }
    ensures second { IfOk result (λ j. j.second ≡ second_image seed) }
    ensures nonsecure { IfOk result (λ j. j.nonsecure ≡ nonsecure_image) }
    ensures script { IfOk result (λ j. j.script ≡ generated_events seed steps) }
{
    let first = secure_image(alloc, EORS, drawn(seed))?;
    let second = secure_image(alloc, ORRS, drawn(stirred(seed)))?;
    let nonsecure = nonsecure_image(alloc)?;
    let events = generated_events(alloc, seed, steps)?;
    let script = Script::of(alloc, &events)?;
    Ok(Job {
        first,
        second,
        nonsecure,
        script,
    })
}
