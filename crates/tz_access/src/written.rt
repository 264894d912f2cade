//! What stores overwrote: it is noted, where that is wanted, and put back.

ghost use Rattle.std.specs.Prelude.{◌≡◌, ◌+◌, ◌++◌, ◌<◌, ◌≤◌, ◌^◌, [], ◌∷◌, true, false, take, slice_index_or, IfOk, Some, OnOk, OnErr};
ghost use Rattle.arrayvec.specs.ArrayVec.{array_vec_len};
ghost use Rattle.tz_model.specs.Words.{wrap};
ghost use Rattle.tz_state.specs.Access.{is_writable};
ghost use Rattle.tz_state.specs.Memory.{byte_at, every, with_value};
ghost use Rattle.tz_state.specs.State.{with_memory};
ghost use Rattle.tz_access.specs.Written.{put_back, undone, before_stores, noted_count};

use crate::bus::Bus;
use arrayvec::ArrayVec;
use std::alloc::{AllocError, Global};
use std::marker::Model;
use tz_mem::Refused;
use tz_model::Size;

/// What a store overwrote: the number of this size that stood at the address.
#[derive(Clone, Copy)]
pub struct Was {
    pub addr: u32,
    pub size: Size,
    pub value: u32,
}

impl Default for Was {
    fn default() -> Self {
        Was {
            addr: 0,
            size: Size::Byte,
            value: 0,
        }
    }
}

/// What the stores of a step overwrote, the newest last: those of moves, of its instruction, and of frames. It stands in
/// a box, so that a step which notes nothing has no room for it to make ready.
#[derive(Drop)]
pub struct Written {
    list: Box<ArrayVec<Was, 40>>,
}

impl Model for Written {
    ghost use Rattle.arrayvec.specs.ArrayVec.{ArrayVec};
    ghost use Rattle.tz_access.specs.declared.written.Was.{Was};

    ghost Value = { ArrayVec Was };

    ghost view = { λ w. w.list.value };
}

impl Written {
    /// A list with room for 40 stores, and none in it.
    ///
    /// # Errors
    ///
    /// `AllocError` where memory runs out.
    pub fn new(alloc: Global) -> Result<Written, AllocError>
        ensures { IfOk result (λ written. array_vec_len written ≡ 0) }
    {
        let list = Box::new(alloc, ArrayVec::new())?;
        Ok(Written { list })
    }

    /// Forgets all stores.
    pub fn clear(&mut self)
        ensures { self.new.items ≡ [] }
    {
        self.list.clear();
    }

    /// How many stores are noted.
    pub fn len(&self) -> usize
        ensures { result ≡ array_vec_len self.now }
    {
        self.list.len()
    }

    /// What the store of a number overwrote.
    fn was_at(&self, index: usize) -> Was
        requires { index < array_vec_len self.now }
        ensures { result ≡ slice_index_or self.now.items index result }
    {
        self.list[index]
    }

    /// Notes what one more store overwrote.
    fn push(&mut self, was: Was)
        requires { array_vec_len self.old < 40 }
        ensures items { self.new.items ≡ self.old.items ++ (was ∷ []) }
        ensures len { array_vec_len self.new ≡ array_vec_len self.old + 1 }
    {
        self.list.push(was);
    }
}

impl Bus {
    /// What stands at the four addresses from one on are bytes.
    fn know_bytes(&self, addr: u32)
        ensures first { byte_at self.now.state.memory addr < 2 ^ 8 }
        ensures second { byte_at self.now.state.memory (wrap (addr + 1)) < 2 ^ 8 }
        ensures third { byte_at self.now.state.memory (wrap (addr + 2)) < 2 ^ 8 }
        ensures fourth { byte_at self.now.state.memory (wrap (addr + 3)) < 2 ^ 8 }
    {
        self.memory.know_byte(addr);
        self.memory.know_byte(addr.wrapping_add(1));
        self.memory.know_byte(addr.wrapping_add(2));
        self.memory.know_byte(addr.wrapping_add(3));
    }

    /// Writes as `write` does, and adds what it overwrote to a list.
    #[inline(never)]
    fn write_into(
        &mut self,
        addr: u32,
        size: Size,
        value: u32,
        list: &mut Written,
    ) -> Result<(), Refused>
        requires room { noted_count (Some list.old) < 40 }
        ensures written { OnOk result (self.new.state ≡ with_memory self.old.state (with_value self.old.state.memory size addr value)) }
        ensures takes { OnOk result (every (is_writable self.old.state.board.regions) addr size ≡ true) }
        ensures refused { OnErr result (every (is_writable self.old.state.board.regions) addr size ≡ false) }
        ensures kept { OnErr result (self.new.state ≡ self.old.state) }
        ensures noted { undone list.new.items self.new.state.memory ≡ undone list.old.items self.old.state.memory }
        ensures few { noted_count (Some list.new) ≤ noted_count (Some list.old) + 1 }
    {
        self.know_bytes(addr);
        match self.read(addr, size) {
            Err(_) => Err(Refused::NotMapped),
            Ok(was) => match self.write(addr, size, value) {
                Err(refused) => Err(refused),
                Ok(()) => {
                    list.push(Was {
                        addr,
                        size,
                        value: was,
                    });
                    Ok(())
                }
            },
        }
    }

    /// Writes as `write` does, and notes what it overwrote, where that is wanted. Fails as `write` does; nothing is noted
    /// then.
    #[inline(always)]
    pub fn write_noted(
        &mut self,
        addr: u32,
        size: Size,
        value: u32,
        written: &mut Option<Written>,
    ) -> Result<(), Refused>
        requires room { noted_count written.old < 40 }
        ensures written { OnOk result (self.new.state ≡ with_memory self.old.state (with_value self.old.state.memory size addr value)) }
        ensures takes { OnOk result (every (is_writable self.old.state.board.regions) addr size ≡ true) }
        ensures refused { OnErr result (every (is_writable self.old.state.board.regions) addr size ≡ false) }
        ensures kept { OnErr result (self.new.state ≡ self.old.state) }
        ensures noted { before_stores written.new self.new.state.memory ≡ before_stores written.old self.old.state.memory }
        ensures few { noted_count written.new ≤ noted_count written.old + 1 }
    {
        match written {
            None => self.write(addr, size, value),
            Some(list) => self.write_into(addr, size, value, list),
        }
    }

    /// Puts back what a store overwrote.
    fn put_back(&mut self, was: &Was)
        ensures { self.new.state ≡ with_memory self.old.state (put_back was.now self.old.state.memory) }
    {
        self.memory.put(was.addr, was.size, was.value);
    }

    /// Puts back what the store of a number overwrote, where those behind it are put back.
    #[tactic(auto, using(crate::proofs::Undoing::undone_next))]
    fn undo_one(&mut self, written: &Written, index: usize)
        requires { index < array_vec_len written.now }
        ensures { with_memory self.new.state (undone (take index written.now.items) self.new.state.memory) ≡ with_memory self.old.state (undone (take (index + 1) written.now.items) self.old.state.memory) }
    {
        let was = written.was_at(index);
        self.put_back(&was);
    }

    /// Puts back what stores overwrote, the newest first. Memory is then as it was before these stores, if it is as
    /// they left it.
    pub fn undo(&mut self, written: &Written)
        ensures { self.new.state ≡ with_memory self.old.state (undone written.now.items self.old.state.memory) }
    {
        let count = written.len();
        for index in 0..count {
            self.undo_one(written, count - 1 - index);
        }
    }
}
