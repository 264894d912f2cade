//! Loads and stores over the machine's port, and what the exclusive monitor has to do with them.

ghost use Rattle.std.specs.Prelude.{◌≡◌, ◌≤◌};
ghost use Rattle.arrayvec.specs.ArrayVec.{array_vec_len};
ghost use Rattle.tz_table.specs.declared.instruction.Insn.TheVariants.{Load as LoadRegister, Store as StoreRegister};
ghost use Rattle.tz_access.specs.Written.{before_stores, noted_count};
ghost use Rattle.tz_sem.specs.Local.{local_of, with_local, put};
ghost use Rattle.tz_sem.specs.declared.family.Family.TheVariants.{LoadStore};
ghost use Rattle.tz_sem.specs.Exec.{marked, loads_stores, stores_exclusive, executed_by};

use crate::asking::traps_unaligned;
use crate::changes::Stores;
use crate::port::port_over;
use crate::running::Machine;
use tz_access::{Place, Written, is_aligned};
use tz_loadstore::{at_offset, extend, finish_load, place, refusal, reg, write_back};
use tz_model::{ALIGNED_BY_CCR, Address, Fault, Insn, Outcome, Size, Store, cut_to};
use tz_regs::Core;
use tz_state::Asker;

/// Writes 1 to the register that tells whether a store was made.
#[tactic(auto, using(crate::proofs::Named::put_named))]
fn tell_unstored(core: &mut Core, rd: u8)
    ensures { core.new ≡ with_local core.old (put (local_of core.old) rd 1) }
{
    core.put(rd, 1);
}

impl Machine {
    ghost use Rattle.tz_state.specs.State.{priority_in, is_negative_at};

    /// A load of one register. Most are of memory, and take no port, which is made ready for an access to a system register.
    #[tactic(auto, using(crate::proofs::OneRegister::refused, crate::proofs::OneRegister::load_faults, crate::proofs::OneRegister::load_leaves))]
    #[inline(always)]
    fn load_one(
        &mut self,
        insn: &Insn,
        size: Size,
        signed: bool,
        rt: u8,
        address: &Address,
        user: bool,
        negative: bool,
        stores: &mut Stores,
        written: &mut Option<Written>,
    ) -> Result<Outcome, Fault>
        requires is { insn.now ≡ LoadRegister size signed rt address.now user }
        requires negative { negative ≡ is_negative_at (priority_in self.old) }
        requires empty { array_vec_len stores.old ≡ 0 }
        requires few { noted_count written.old ≤ 2 }
        ensures does { loads_stores self.old insn.now ≡ record { state = self.new; stores = stores.new.items; outcome = result } }
        ensures back { before_stores written.new self.new.bus.memory ≡ before_stores written.old self.old.bus.memory }
        ensures few { noted_count written.new ≤ 16 }
    {
        if let Some(fault) = refusal(&self.core, address) {
            return Err(fault);
        }
        let side = self.core.run.side;
        let asker = Asker {
            side,
            privileged: self.core.privileged(side),
            negative,
            aligned: traps_unaligned(self.core.ccr(side)),
        };
        let addr = place(&self.core, address);
        match self.bus.load(&asker, size, addr, rt == 15, user) {
            Ok(Some(value)) => {
                let word = extend(signed, size, value);
                Ok(finish_load(&mut self.core, address, rt, word))
            }
            Ok(None) => self.load_store_by_port(insn, negative, stores, written),
            Err(fault) => Err(fault),
        }
    }

    /// A store of one register, likewise.
    #[tactic(auto, using(crate::proofs::OneRegister::refused, crate::proofs::OneRegister::store_faults, crate::proofs::OneRegister::store_leaves))]
    #[inline(always)]
    fn store_one(
        &mut self,
        insn: &Insn,
        size: Size,
        rt: u8,
        address: &Address,
        user: bool,
        negative: bool,
        stores: &mut Stores,
        written: &mut Option<Written>,
    ) -> Result<Outcome, Fault>
        requires is { insn.now ≡ StoreRegister size rt address.now user }
        requires negative { negative ≡ is_negative_at (priority_in self.old) }
        requires empty { array_vec_len stores.old ≡ 0 }
        requires few { noted_count written.old ≤ 2 }
        ensures does { loads_stores self.old insn.now ≡ record { state = self.new; stores = stores.new.items; outcome = result } }
        ensures back { before_stores written.new self.new.bus.memory ≡ before_stores written.old self.old.bus.memory }
        ensures few { noted_count written.new ≤ 16 }
    {
        if let Some(fault) = refusal(&self.core, address) {
            return Err(fault);
        }
        let side = self.core.run.side;
        let asker = Asker {
            side,
            privileged: self.core.privileged(side),
            negative,
            aligned: traps_unaligned(self.core.ccr(side)),
        };
        let addr = place(&self.core, address);
        let value = reg(&self.core, rt);
        match self
            .bus
            .store(&asker, size, addr, value, ALIGNED_BY_CCR, user, written)
        {
            Ok(Place::Memory) => {
                stores.push(Store {
                    addr,
                    size,
                    value: cut_to(size, value),
                });
                write_back(&mut self.core, address);
                Ok(Outcome::Next)
            }
            Ok(Place::System) => self.load_store_by_port(insn, negative, stores, written),
            Err(fault) => Err(fault),
        }
    }

    /// A load or a store of the running code: one of one register by itself, and all others over the port.
    pub(crate) fn load_store(
        &mut self,
        insn: &Insn,
        negative: bool,
        stores: &mut Stores,
        written: &mut Option<Written>,
    ) -> Result<Outcome, Fault>
        requires negative { negative ≡ is_negative_at (priority_in self.old) }
        requires empty { array_vec_len stores.old ≡ 0 }
        requires few { noted_count written.old ≤ 2 }
        ensures does { loads_stores self.old insn.now ≡ record { state = self.new; stores = stores.new.items; outcome = result } }
        ensures back { before_stores written.new self.new.bus.memory ≡ before_stores written.old self.old.bus.memory }
        ensures few { noted_count written.new ≤ 16 }
    {
        match *insn {
            Insn::Load {
                size,
                signed,
                rt,
                address,
                user,
            } => self.load_one(
                insn, size, signed, rt, &address, user, negative, stores, written,
            ),
            Insn::Store {
                size,
                rt,
                address,
                user,
            } => self.store_one(insn, size, rt, &address, user, negative, stores, written),
            _ => self.load_store_by_port(insn, negative, stores, written),
        }
    }

    /// A load or a store of the running code, over the port. It is a call, so that where none is taken none has room.
    #[inline(never)]
    fn load_store_by_port(
        &mut self,
        insn: &Insn,
        negative: bool,
        stores: &mut Stores,
        written: &mut Option<Written>,
    ) -> Result<Outcome, Fault>
        requires negative { negative ≡ is_negative_at (priority_in self.old) }
        requires empty { array_vec_len stores.old ≡ 0 }
        requires few { noted_count written.old ≤ 2 }
        ensures does { loads_stores self.old insn.now ≡ record { state = self.new; stores = stores.new.items; outcome = result } }
        ensures back { before_stores written.new self.new.bus.memory ≡ before_stores written.old self.old.bus.memory }
        ensures few { noted_count written.new ≤ 16 }
    {
        let asker = self.asker(negative);
        let mut port = port_over(
            asker,
            &self.core,
            &mut self.exceptions,
            &mut self.bus,
            stores,
            written,
        );
        let outcome = tz_loadstore::execute(insn, &mut self.core, &mut port);
        self.core.status = port.status;
        outcome
    }

    /// A load that sets the monitor, where it succeeds.
    fn load_exclusive(
        &mut self,
        insn: &Insn,
        negative: bool,
        stores: &mut Stores,
        written: &mut Option<Written>,
        addr: u32,
        size: Size,
    ) -> Result<Outcome, Fault>
        requires negative { negative ≡ is_negative_at (priority_in self.old) }
        requires empty { array_vec_len stores.old ≡ 0 }
        requires few { noted_count written.old ≤ 2 }
        ensures does { marked (record { addr = addr; size = size }) (loads_stores self.old insn.now) ≡ record { state = self.new; stores = stores.new.items; outcome = result } }
        ensures back { before_stores written.new self.new.bus.memory ≡ before_stores written.old self.old.bus.memory }
        ensures few { noted_count written.new ≤ 16 }
    {
        match self.load_store(insn, negative, stores, written) {
            Ok(outcome) => {
                self.bus.monitor_set(addr, size);
                Ok(outcome)
            }
            Err(fault) => Err(fault),
        }
    }

    /// A store that is made only where the monitor holds its address and size; the monitor is cleared in both
    /// cases. Unaligned, it faults, and the monitor stays.
    fn store_exclusive(
        &mut self,
        insn: &Insn,
        negative: bool,
        stores: &mut Stores,
        written: &mut Option<Written>,
        addr: u32,
        size: Size,
        rd: u8,
    ) -> Result<Outcome, Fault>
        requires negative { negative ≡ is_negative_at (priority_in self.old) }
        requires empty { array_vec_len stores.old ≡ 0 }
        requires few { noted_count written.old ≤ 2 }
        ensures does { stores_exclusive self.old insn.now (record { addr = addr; size = size }) rd ≡ record { state = self.new; stores = stores.new.items; outcome = result } }
        ensures back { before_stores written.new self.new.bus.memory ≡ before_stores written.old self.old.bus.memory }
        ensures few { noted_count written.new ≤ 16 }
    {
        if !is_aligned(size, addr) {
            return Err(Fault::Unaligned);
        }
        if self.bus.monitor_take(addr, size) {
            return self.load_store(insn, negative, stores, written);
        }
        tell_unstored(&mut self.core, rd);
        Ok(Outcome::Next)
    }

    /// A load or a store of the running code, with what the exclusive monitor has to do with it.
    pub(crate) fn run_load_store(
        &mut self,
        insn: &Insn,
        negative: bool,
        stores: &mut Stores,
        written: &mut Option<Written>,
    ) -> Result<Outcome, Fault>
        requires negative { negative ≡ is_negative_at (priority_in self.old) }
        requires empty { array_vec_len stores.old ≡ 0 }
        requires few { noted_count written.old ≤ 2 }
        ensures does { executed_by LoadStore self.old insn.now ≡ record { state = self.new; stores = stores.new.items; outcome = result } }
        ensures back { before_stores written.new self.new.bus.memory ≡ before_stores written.old self.old.bus.memory }
        ensures few { noted_count written.new ≤ 16 }
    {
        match *insn {
            Insn::LoadExclusive {
                size,
                rn,
                offset,
                ..
            } => {
                let addr = at_offset(&self.core, rn, offset);
                self.load_exclusive(insn, negative, stores, written, addr, size)
            }
            Insn::StoreExclusive {
                size,
                rd,
                rn,
                offset,
                ..
            } => {
                let addr = at_offset(&self.core, rn, offset);
                self.store_exclusive(insn, negative, stores, written, addr, size, rd)
            }
            _ => self.load_store(insn, negative, stores, written),
        }
    }
}
