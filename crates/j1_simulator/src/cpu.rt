// The round machine without its console.
ghost use Rattle.std.specs.Prelude.{◌≡◌, ◌<◌, ◌≤ℤ◌, pos, negsuc, length, slice_index, OnErr, false, ℕ, Option};
ghost use Rattle.j1_simulator.specs.declared.effects.Output.TheVariants.{Silent};
ghost use Rattle.j1_table.specs.Instruction.{decoded};
ghost use Rattle.j1_simulator.specs.Step.{Advances, step as step_of, effect_at, moved_on, data_after, return_after};
ghost use Rattle.j1_simulator.specs.RoundMachine.{round_storage, empty_ring, ring_top};
ghost use Rattle.j1_simulator.specs.MachineState.{WentOn, observation_of, with_key};
ghost use Rattle.j1_simulator.specs.PortAccess.{step_given};
ghost use Rattle.j1_simulator.specs.RegisterView.{registers_of, data_cell};

use crate::effects::{Effect, Output, Pause, ReturnWrite};
use crate::operate::{new_top, next_pc_of};
use crate::plans::plan;
use crate::reach::reach;
use crate::registers::Registers;
use crate::rings::Ring;
use console_ports::{Access, Fence, access};
use j1_table::{Instr, decode};
use std::marker::Model;

/// Registers, stacks and memory.
#[derive(Drop)]
pub struct Cpu {
    pc: u16,
    t: u16,
    data_stack: Ring,
    return_stack: Ring,
    memory: Vec<u16>,
}

impl Model for Cpu {
    ghost use Rattle.std.specs.Prelude.{ℕ, ◌<◌, ◌≡◌, length};
    ghost use Rattle.j1_simulator.specs.Step.{Core};
    ghost use Rattle.j1_simulator.specs.RoundMachine.{RingCells};

    ghost Value = { Core ℕ RingCells };

    ghost view = { λ c. record { pc = c.pc; t = c.t; data_stack = c.data_stack; return_stack = c.return_stack; memory = c.memory.items } };

    ghost invariant = { λ c. (c.pc < 0x2000) × (length c.memory.items ≡ 0x2000) };
}

// Moves the data stack, and writes the old T there.
#[inline(always)]
fn change_data(stack: &mut Ring, effect: Effect, t: u16)
    requires low { negsuc 1 ≤ℤ effect.data_move }
    requires high { effect.data_move ≤ℤ pos 1 }
    ensures { stack.new ≡ data_after round_storage effect.t_to_n effect.data_move t stack.old }
{
    stack.move_by(effect.data_move);
    if effect.t_to_n {
        stack.put(t);
    }
}

// Moves the return stack, and writes what goes there.
#[inline(always)]
fn change_return(stack: &mut Ring, effect: Effect, t: u16)
    requires low { negsuc 1 ≤ℤ effect.return_move }
    requires high { effect.return_move ≤ℤ pos 1 }
    ensures { stack.new ≡ return_after round_storage effect.return_write effect.return_move t stack.old }
{
    stack.move_by(effect.return_move);
    match effect.return_write {
        ReturnWrite::Nothing => {}
        ReturnWrite::OldTop => stack.put(t),
        ReturnWrite::ReturnTo(address) => stack.put(address),
    }
}

impl Cpu {
    /// The machine at its start, over this memory.
    pub fn new(memory: Vec<u16>) -> Cpu
        requires { length memory.items ≡ 0x2000 }
        ensures { result ≡ record { pc = 0; t = 0; data_stack = empty_ring; return_stack = empty_ring; memory = memory.items } }
    {
        Cpu {
            pc: 0,
            t: 0,
            data_stack: Ring::new(),
            return_stack: Ring::new(),
            memory,
        }
    }

    /// The next instruction.
    #[inline(always)]
    pub fn next_instr(&self) -> Instr
        ensures { result ≡ decoded (slice_index self.now.memory self.now.pc) }
    {
        decode(self.memory[usize::from(self.pc)])
    }

    /// What the next instruction does, which is this one.
    #[inline(always)]
    pub fn effect_of(&self, instr: Instr) -> Effect
        requires { instr ≡ decoded (slice_index self.now.memory self.now.pc) }
        ensures effect { result ≡ effect_at self.now }
        ensures data_low { negsuc 1 ≤ℤ result.data_move }
        ensures data_high { result.data_move ≤ℤ pos 1 }
        ensures return_low { negsuc 1 ≤ℤ result.return_move }
        ensures return_high { result.return_move ≤ℤ pos 1 }
    {
        plan(self.pc, instr)
    }

    // Moves on to this place by this effect, where the access gave this cell.
    #[inline(always)]
    fn move_on(&mut self, effect: Effect, pc: u16, cell: u16)
        requires place { pc < 0x2000 }
        requires data_low { negsuc 1 ≤ℤ effect.data_move }
        requires data_high { effect.data_move ≤ℤ pos 1 }
        requires return_low { negsuc 1 ≤ℤ effect.return_move }
        requires return_high { effect.return_move ≤ℤ pos 1 }
        ensures { self.new ≡ moved_on round_storage effect self.old pc cell self.old.memory }
    {
        let t = self.t;
        let n = self.data_stack.top();
        let r = self.return_stack.top();
        let depth = u16::from(self.return_stack.at()) * 256 + u16::from(self.data_stack.at());
        self.pc = pc;
        self.t = new_top(effect.new_top, t, n, r, cell, depth);
        change_data(&mut self.data_stack, effect, t);
        change_return(&mut self.return_stack, effect, t);
    }

    /// One instruction, of this effect, which makes no access.
    #[inline(always)]
    pub fn pass(&mut self, effect: Effect)
        requires effect { effect ≡ effect_at self.old }
        requires fetches { effect.fetches ≡ false }
        requires stores { effect.stores ≡ false }
        requires data_low { negsuc 1 ≤ℤ effect.data_move }
        requires data_high { effect.data_move ≤ℤ pos 1 }
        requires return_low { negsuc 1 ≤ℤ effect.return_move }
        requires return_high { effect.return_move ≤ℤ pos 1 }
        ensures { (key : Option ℕ) (data_start : ℕ) → WentOn self.new Silent ≡ with_key key (step_of round_storage data_start self.old) }
    {
        let t = self.t;
        let pc = next_pc_of(effect.next, self.pc, t, self.return_stack.top());
        self.move_on(effect, pc, t);
    }

    /// One instruction, of this effect, where the next byte of the input is `key`.
    #[inline(always)]
    pub fn step(&mut self, effect: Effect, fence: Fence, key: Option<u8>) -> Result<Output, Pause>
        requires effect { effect ≡ effect_at self.old }
        requires data_low { negsuc 1 ≤ℤ effect.data_move }
        requires data_high { effect.data_move ≤ℤ pos 1 }
        requires return_low { negsuc 1 ≤ℤ effect.return_move }
        requires return_high { effect.return_move ≤ℤ pos 1 }
        ensures step { observation_of result self.new ≡ with_key key (step_of round_storage fence.data_start self.old) }
        ensures err { OnErr result (self.new ≡ self.old) }
    {
        let n = self.data_stack.top();
        let (cell, output) = reach(
            &mut self.memory,
            fence,
            key,
            effect.fetches,
            effect.stores,
            self.t,
            n,
        )?;
        let pc = next_pc_of(effect.next, self.pc, self.t, self.return_stack.top());
        self.move_on(effect, pc, cell);
        Ok(output)
    }

    /// T.
    #[inline(always)]
    pub fn top(&self) -> u16
        ensures { result ≡ self.now.t }
    {
        self.t
    }

    /// N, the cell below T.
    #[inline(always)]
    pub fn below_top(&self) -> u16
        ensures { result ≡ ring_top self.now.data_stack }
    {
        self.data_stack.top()
    }

    /// Registers, tops and pointers, before the next instruction.
    pub fn registers(&self) -> Registers
        ensures { result ≡ registers_of self.now }
    {
        Registers {
            place: self.pc,
            cell: self.memory[usize::from(self.pc)],
            t: self.t,
            n: self.data_stack.top(),
            r: self.return_stack.top(),
            data_pointer: self.data_stack.at(),
            return_pointer: self.return_stack.at(),
        }
    }

    /// The cell at the address T, where that is in data space.
    pub fn data_cell(&self, fence: Fence) -> Option<u16>
        ensures { result ≡ data_cell fence.data_start self.now }
    {
        match access(self.t, fence, false) {
            Access::Data(i) => Some(self.memory[i]),
            _ => None,
        }
    }

    /// One instruction, of this effect, where a fetch gives this cell and no memory changes.
    pub fn pass_given(&mut self, effect: Effect, cell: u16)
        requires effect { effect ≡ effect_at self.old }
        requires data_low { negsuc 1 ≤ℤ effect.data_move }
        requires data_high { effect.data_move ≤ℤ pos 1 }
        requires return_low { negsuc 1 ≤ℤ effect.return_move }
        requires return_high { effect.return_move ≤ℤ pos 1 }
        ensures { Advances self.new Silent ≡ step_given cell self.old }
    {
        let pc = next_pc_of(effect.next, self.pc, self.t, self.return_stack.top());
        self.move_on(effect, pc, cell);
    }
}
