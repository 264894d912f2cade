//! The operation of an instruction, by its family.

ghost use Rattle.std.specs.Prelude.{◌≡◌, ◌≤◌, []};
ghost use Rattle.arrayvec.specs.ArrayVec.{array_vec_len};
ghost use Rattle.tz_access.specs.Written.{before_stores, noted_count};

use crate::changes::Stores;
use crate::port::port_over;
use crate::running::Machine;
use tz_access::Written;
use tz_model::{Fault, Insn, Outcome};
use tz_prio::execution_priority;

impl Machine {
    ghost use Rattle.tz_state.specs.State.{priority_in, is_negative_at};
    ghost use Rattle.tz_sem.specs.declared.family.Family.TheVariants.{Alu, Branch, System};
    ghost use Rattle.tz_sem.specs.Local.{local_of};
    ghost use Rattle.tz_sem.specs.Branch.{plan_branch};
    ghost use Rattle.tz_sem.specs.Exec.{executed_by, executed};

    /// Data processing.
    fn data(&mut self, insn: &Insn) -> Result<Outcome, Fault>
        ensures does { executed_by Alu self.old insn.now ≡ record { state = self.new; stores = []; outcome = result } }
        ensures kept { self.new.bus.memory ≡ self.old.bus.memory }
    {
        tz_alu::execute(insn, &mut self.core)
    }

    /// Branches, and IT, but for table branches.
    #[tactic(auto, using(crate::proofs::Alone::branch_alone))]
    fn branch(&mut self, insn: &Insn) -> Result<Outcome, Fault>
        requires { plan_branch insn.now (local_of self.old.core) ≡ [] }
        ensures does { executed_by Branch self.old insn.now ≡ record { state = self.new; stores = []; outcome = result } }
        ensures kept { self.new.bus.memory ≡ self.old.bus.memory }
    {
        tz_branch::execute_alone(insn, &mut self.core)
    }

    /// A table branch, which loads.
    fn table_branch(
        &mut self,
        insn: &Insn,
        negative: bool,
        stores: &mut Stores,
        written: &mut Option<Written>,
    ) -> Result<Outcome, Fault>
        requires negative { negative ≡ is_negative_at (priority_in self.old) }
        requires empty { array_vec_len stores.old ≡ 0 }
        requires few { noted_count written.old ≤ 2 }
        ensures does { executed_by Branch self.old insn.now ≡ record { state = self.new; stores = stores.new.items; outcome = result } }
        ensures back { before_stores written.new self.new.bus.memory ≡ before_stores written.old self.old.bus.memory }
        ensures few { noted_count written.new ≤ 16 }
    {
        let asker = self.asker(negative);
        let mut port = port_over(
            asker,
            &self.core,
            &mut self.exceptions,
            &mut self.bus,
            stores,
            written,
        );
        let outcome = tz_branch::execute(insn, &mut self.core, &mut port);
        self.core.status = port.status;
        outcome
    }

    /// System instructions, which know the execution priority.
    fn system(&mut self, insn: &Insn) -> Result<Outcome, Fault>
        ensures does { executed_by System self.old insn.now ≡ record { state = self.new; stores = []; outcome = result } }
        ensures kept { self.new.bus.memory ≡ self.old.bus.memory }
    {
        let priority = execution_priority(&self.core, &self.exceptions);
        tz_system::execute(insn, &mut self.core, &mut self.bus, priority)
    }

    /// Runs an instruction up to how it goes on: all but PC and the IT state is as it leaves it, and its
    /// stores are noted. At a fault the core is as it was, and the stores before it stand.
    pub(crate) fn execute(
        &mut self,
        insn: &Insn,
        negative: bool,
        stores: &mut Stores,
        written: &mut Option<Written>,
    ) -> Result<Outcome, Fault>
        requires negative { negative ≡ is_negative_at (priority_in self.old) }
        requires empty { array_vec_len stores.old ≡ 0 }
        requires few { noted_count written.old ≤ 2 }
        ensures does { executed self.old insn.now ≡ record { state = self.new; stores = stores.new.items; outcome = result } }
        ensures back { before_stores written.new self.new.bus.memory ≡ before_stores written.old self.old.bus.memory }
        ensures few { noted_count written.new ≤ 16 }
    {
        match *insn {
            Insn::DataImm { .. }
            | Insn::DataReg { .. }
            | Insn::ShiftReg { .. }
            | Insn::AddWide { .. }
            | Insn::Adr { .. }
            | Insn::MovWide { .. }
            | Insn::Saturate { .. }
            | Insn::BitField { .. }
            | Insn::Extend { .. }
            | Insn::Reverse { .. }
            | Insn::Multiply { .. }
            | Insn::MultiplyLong { .. }
            | Insn::Divide { .. } => self.data(insn),
            Insn::Branch { .. }
            | Insn::BranchIf { .. }
            | Insn::BranchLink { .. }
            | Insn::BranchZero { .. }
            | Insn::BranchExchange { .. }
            | Insn::CallExchange { .. }
            | Insn::IfThen { .. } => self.branch(insn),
            Insn::TableBranch { .. } => self.table_branch(insn, negative, stores, written),
            Insn::Hint { .. }
            | Insn::Barrier { .. }
            | Insn::ChangeState { .. }
            | Insn::ReadSpecial { .. }
            | Insn::WriteSpecial { .. }
            | Insn::TestTarget { .. }
            | Insn::SecureGateway
            | Insn::LazyState { .. }
            | Insn::Supervisor { .. }
            | Insn::Breakpoint { .. }
            | Insn::Undefined { .. } => self.system(insn),
            Insn::Load { .. }
            | Insn::Store { .. }
            | Insn::LoadPair { .. }
            | Insn::StorePair { .. }
            | Insn::LoadMany { .. }
            | Insn::StoreMany { .. }
            | Insn::Preload
            | Insn::LoadExclusive { .. }
            | Insn::StoreExclusive { .. }
            | Insn::LoadAcquire { .. }
            | Insn::StoreRelease { .. } => self.run_load_store(insn, negative, stores, written),
        }
    }
}
