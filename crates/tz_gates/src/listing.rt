//! The gates of a machine as it starts.

ghost use Rattle.std.specs.Prelude.{◌≡◌, IfOk};
ghost use Rattle.std.specs.List.Sorted.{IsStrictlyIncreasing};
ghost use Rattle.tz_sem.specs.Boot.{boot};
ghost use Rattle.tz_gates.specs.Gates.{gates_of};
ghost use Rattle.tz_gates.specs.Stays.{FindsGates};

use crate::scan::{Scan, know_regions};
use crate::spans::next_span;
use std::alloc::{AllocError, Global};
use tz_core::Machine;
use tz_model::{Board, Image};

/// The gates of a machine. Each region is read once, and of it only what Non-secure code may call.
pub(crate) fn gates_in(alloc: Global, machine: &Machine) -> Result<Vec<u32>, AllocError>
    ensures gates { IfOk result (λ v. v.items ≡ gates_of machine.now) }
    ensures ascending { IfOk result (λ v. IsStrictlyIncreasing v.items) }
    ensures found { IfOk result (λ v. FindsGates machine.now v.items) }
{
    know_regions(machine);
    let regions = &machine.board().regions;
    let mut scan = Scan::new(alloc);
    let mut from = 0;
    'spans: while let Some((first, end)) = next_span(regions, from) {
        scan.go_to(machine, from, first);
        scan.read_span(machine, first, end)?;
        from = end;
    }
    Ok(scan.gates)
}

/// The gates of a board that starts with a Secure and a Non-secure image, ascending: each even address of two
/// halfwords of SG that Non-secure code may call. Fails for want of memory alone.
///
/// As long as the board, CTRL and the regions of the SAU, and the bytes that Non-secure code might call stay, a
/// fetch of Non-secure code at each of them meets SG, or the fault of the Secure MPU.
pub fn list(
    alloc: Global,
    board: &Board,
    secure: &Image,
    nonsecure: &Image,
) -> Result<Vec<u32>, AllocError>
    ensures gates { IfOk result (λ v. v.items ≡ gates_of (boot board.now secure.now nonsecure.now)) }
    ensures ascending { IfOk result (λ v. IsStrictlyIncreasing v.items) }
    ensures found { IfOk result (λ v. FindsGates (boot board.now secure.now nonsecure.now) v.items) }
{
    let machine = Machine::new(alloc, board, secure, nonsecure)?;
    gates_in(alloc, &machine)
}
