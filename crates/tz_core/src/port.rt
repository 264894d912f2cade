//! The port of the machine: the accesses of its instructions, by the bus and to the system registers.

ghost use Rattle.std.specs.Prelude.{◌-◌, ◌+◌, ◌<◌, ◌≤◌, ◌≡◌, ◌++◌, ◌∷◌, [], ℕ, true};
ghost use Rattle.arrayvec.specs.ArrayVec.{array_vec_len};
ghost use Rattle.tz_state.specs.Access.{access, is_aligned, Reached};
ghost use Rattle.tz_state.specs.SystemRegisters.{SystemState};
ghost use Rattle.tz_state.specs.Views.{system_value, system_read, system_written};
ghost use Rattle.tz_access.specs.Written.{before_stores, noted_count};

use crate::changes::Stores;
use tz_access::{Bus, Place, Written};
use tz_model::{Fault, Port, Size, Store, cut_to};
use tz_nvic::Exceptions;
use tz_regs::{Core, Status};
use tz_scs::SystemRegisters;
use tz_state::Asker;

/// The accesses of one instruction: who asks for them, what the system registers stand in, the stores made, and what
/// they overwrote, where that is noted.
/// The status is a copy, which goes back into the core after the instruction.
#[derive(Drop)]
pub struct CorePort<'a> {
    pub asker: Asker,
    /// IPSR, 0 in Thread mode.
    pub ipsr: u16,
    pub status: Status,
    pub exceptions: &'a mut Exceptions,
    pub bus: &'a mut Bus,
    pub stores: &'a mut Stores,
    pub written: &'a mut Option<Written>,
}

/// The port of code that asks so, over the parts of the machine.
#[inline(always)]
pub(crate) fn port_over<'a>(
    asker: Asker,
    core: &Core,
    exceptions: &'a mut Exceptions,
    bus: &'a mut Bus,
    stores: &'a mut Stores,
    written: &'a mut Option<Written>,
) -> CorePort<'a>
    ensures { result ≡ record {
      asker = asker;
      ipsr = core.now.registers.ipsr;
      status = core.now.status;
      exceptions = exceptions.entry;
      bus = bus.entry;
      stores = stores.entry;
      written = written.entry;
    } }
{
    CorePort {
        asker,
        ipsr: core.registers.ipsr,
        status: core.status,
        exceptions,
        bus,
        stores,
        written,
    }
}

impl CorePort<'_> {
    /// Notes a store.
    fn note(&mut self, addr: u32, size: Size, value: u32)
        requires { array_vec_len self.old.stores.now < 16 }
        ensures port { self.new ≡ record self.old { stores = self.new.stores } }
        ensures stores { self.new.stores.now.items ≡ self.old.stores.now.items ++ record { addr = addr; size = size; value = value } ∷ [] }
        ensures room { array_vec_len self.new.stores.now ≤ array_vec_len self.old.stores.now + 1 }
        ensures lent { self.new.stores.ghost_name ≡ self.old.stores.ghost_name }
    {
        self.stores.push(Store { addr, size, value });
    }
}

impl Port for CorePort<'_> {
    ghost use Rattle.std.specs.Prelude.{max, Option};
    ghost use Rattle.tz_state.specs.Memory.{Memory};

    ghost Held = { Reached };

    ghost held = { λ p. record {
      asker = p.asker;
      system = record { ipsr = p.ipsr; status = p.status; exceptions = p.exceptions.now; bus = p.bus.now.state };
      stores = p.stores.now.items;
    } };

    ghost answer = { access };

    ghost room = { λ p. 16 - max (array_vec_len p.stores.now) (noted_count p.written.now - 2) };

    ghost Lent = { ℕ × ℕ × ℕ × ℕ × Option Memory × ℕ };

    ghost lent = { λ p. (p.exceptions.ghost_name, p.bus.ghost_name, p.stores.ghost_name, p.written.ghost_name, before_stores p.written.now p.bus.now.state.memory, noted_count p.written.now - 18) };

    #[tactic(auto, using(crate::proofs::Private::private_aligned), unfolding(tz_state::specs::Access::access))]
    fn load(&mut self, addr: u32, size: Size, must_align: bool, user: bool) -> Result<u32, Fault> {
        match self.bus.load(&self.asker, size, addr, must_align, user) {
            Err(fault) => Err(fault),
            Ok(Some(value)) => Ok(value),
            Ok(None) => {
                let mut registers = SystemRegisters {
                    ipsr: self.ipsr,
                    status: &mut self.status,
                    exceptions: self.exceptions,
                    bus: self.bus,
                };
                Ok(registers.read(addr, size, self.asker.side))
            }
        }
    }

    #[tactic(auto, using(crate::proofs::Private::private_aligned), unfolding(tz_state::specs::Access::access))]
    fn store(
        &mut self,
        addr: u32,
        size: Size,
        value: u32,
        must_align: bool,
        user: bool,
    ) -> Result<(), Fault> {
        let cut = cut_to(size, value);
        match self.bus.store(
            &self.asker,
            size,
            addr,
            value,
            must_align,
            user,
            self.written,
        ) {
            Err(fault) => Err(fault),
            Ok(Place::Memory) => {
                self.note(addr, size, cut);
                Ok(())
            }
            Ok(Place::System) => {
                let mut registers = SystemRegisters {
                    ipsr: self.ipsr,
                    status: &mut self.status,
                    exceptions: self.exceptions,
                    bus: self.bus,
                };
                registers.write(addr, size, self.asker.side, cut);
                self.note(addr, size, cut);
                Ok(())
            }
        }
    }
}
