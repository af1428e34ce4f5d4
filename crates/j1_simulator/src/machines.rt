// Machines that are given their input byte by byte.
ghost use Rattle.std.specs.Prelude.{◌≡◌, IfOk, None, false, slice_index};
ghost use Rattle.j1_table.specs.Instruction.{decoded};
ghost use Rattle.j1_table.specs.declared.instr.Instr.TheVariants.{Alu};
ghost use Rattle.j1_simulator.specs.Effect.{effect};
ghost use Rattle.j1_simulator.specs.declared.ends.Event.TheVariants.{Went};
ghost use Rattle.j1_simulator.specs.PortAccess.{next_accesses, OneAtPort, step_given};
ghost use Rattle.j1_simulator.specs.RegisterView.{registers_of, data_cell};
ghost use Rattle.j1_simulator.specs.MachineState.{AnswersStep, key_of, EndsBy, event_of, end_of_output, machine_start, Steps, WantsAByte, GivenIsDue};

use crate::accesses::Accesses;
use crate::counters::Depths;
use crate::cpu::Cpu;
use crate::effects::{Output, Pause};
use crate::ends::{End, Event};
use crate::memory::memory_cells;
use crate::registers::Registers;
use console_ports::Fence;
use j1_table::{AluWord, Image, Instr};
use std::alloc::{AllocError, Global};
use std::marker::Model;

/// A J1 that runs an image.
///
/// Its program counter goes over the 8192 cells of memory. T and the 32 cells of the data ring are the data stack, the 32
/// cells of the return ring the return stack. Contracts see all of it as one value, `MachineState`.
#[derive(Drop)]
pub struct Machine {
    cpu: Cpu,
    fence: Fence,
    given: Option<Option<u8>>,
    depths: Depths,
    ended: Option<End>,
}

impl Model for Machine {
    ghost use Rattle.j1_simulator.specs.MachineState.{MachineState, GivenIsDue};

    ghost Value = { MachineState };

    ghost view = { λ m. record { core = m.cpu; data_start = m.fence.data_start; given = m.given; depths = m.depths; ended = m.ended } };

    ghost invariant = { λ m. GivenIsDue (record { core = m.cpu; data_start = m.fence.data_start; given = m.given; depths = m.depths; ended = m.ended }) };
}

// What a step that goes on answers.
fn answer(output: Output) -> Event
    ensures { result ≡ event_of output }
{
    match output {
        Output::Silent => Event::Went,
        Output::Prints(byte) => Event::Printed(byte),
        Output::Halts(status) => Event::Ended(End::Halted(status)),
    }
}

// The end that a step brings.
fn end_after(output: Output) -> Option<End>
    ensures { result ≡ end_of_output output }
{
    match output {
        Output::Halts(status) => Some(End::Halted(status)),
        _ => None,
    }
}

// The byte that was given.
fn key_in(given: Option<Option<u8>>) -> Option<u8>
    ensures { result ≡ key_of given }
{
    match given {
        None => None,
        Some(key) => key,
    }
}

impl Machine {
    /// The machine at its start on an image: at cell 0, with T and both rings 0. An error is want of memory.
    pub fn new(alloc: Global, image: &Image) -> Result<Machine, AllocError>
        ensures { IfOk result (λ machine. machine ≡ machine_start image.now) }
    {
        let memory = memory_cells(alloc, image)?;
        Ok(Machine {
            cpu: Cpu::new(memory),
            fence: Fence {
                data_start: image.data_start(),
            },
            given: None,
            depths: Depths::new(),
            ended: None,
        })
    }

    fn end_by(&mut self, end: End) -> Event
        ensures { EndsBy end result self.old self.new }
    {
        self.given = None;
        self.ended = Some(end);
        Event::Ended(end)
    }

    // Makes the next instruction, which is this one, of a run that has not ended.
    #[inline(always)]
    fn make(&mut self, instr: Instr) -> Event
        requires running { self.old.ended ≡ None }
        requires instr { instr ≡ decoded (slice_index self.old.core.memory self.old.core.pc) }
        ensures { Steps self.old.ended result self.old self.new }
    {
        let effect = self.cpu.effect_of(instr);
        match self.cpu.step(effect, self.fence, key_in(self.given)) {
            Err(Pause::Wants) => match self.given {
                None => Event::WantsByte,
                Some(_) => self.end_by(End::InputEnded),
            },
            Err(Pause::Stops(end)) => self.end_by(end),
            Ok(output) => {
                self.given = None;
                self.depths.count(effect);
                self.ended = end_after(output);
                answer(output)
            }
        }
    }

    // Makes the next instruction, which is this one, in code of its own: `step` is then small enough to stand in place in several loops.
    #[inline(never)]
    fn make_alu(&mut self, word: AluWord) -> Event
        requires running { self.old.ended ≡ None }
        requires instr { Alu word ≡ decoded (slice_index self.old.core.memory self.old.core.pc) }
        ensures { Steps self.old.ended result self.old self.new }
    {
        self.make(Instr::Alu(word))
    }

    // Makes the next instruction, which is this one and makes no access.
    #[inline(always)]
    fn pass(&mut self, instr: Instr) -> Event
        requires running { self.old.ended ≡ None }
        requires instr { instr ≡ decoded (slice_index self.old.core.memory self.old.core.pc) }
        requires fetches { (effect self.old.core.pc instr).fetches ≡ false }
        requires stores { (effect self.old.core.pc instr).stores ≡ false }
        ensures { Steps self.old.ended result self.old self.new }
    {
        let effect = self.cpu.effect_of(instr);
        self.cpu.pass(effect);
        self.depths.count(effect);
        Event::Went
    }

    /// Makes one instruction, unless the run has ended or the instruction takes a byte and none was given.
    ///
    /// T, N and R are read first. Then comes the fetch, then the store, then both pointers move, and what goes into the
    /// stacks is written at the new pointers. An access outside data space and the ports ends the run and changes nothing
    /// else. `WantsByte` comes exactly where the next instruction takes a byte and none was given; the machine is then
    /// unchanged. From the step that ends the run on, each step answers that same end and changes nothing.
    ///
    /// A byte that was given is always for the next instruction (`due`).
    #[inline(always)]
    pub fn step(&mut self) -> Event
        ensures step { Steps self.old.ended result self.old self.new }
        ensures due { GivenIsDue self.old }
    {
        if let Some(end) = self.ended {
            return Event::Ended(end);
        }
        // an arm for each kind, so that each is compiled for its effect alone
        match self.cpu.next_instr() {
            Instr::Literal(value) => self.pass(Instr::Literal(value)),
            Instr::Jump(target) => self.pass(Instr::Jump(target)),
            Instr::Branch(target) => self.pass(Instr::Branch(target)),
            Instr::Call(target) => self.pass(Instr::Call(target)),
            Instr::Alu(word) => {
                if word.op() == 12 || word.stores() {
                    self.make_alu(word)
                } else {
                    self.pass(Instr::Alu(word))
                }
            }
        }
    }

    /// Makes one instruction as `step` does, in code of its own.
    ///
    /// `drive` has the code of `step` inside its loop, where it is fast. It stands there only as long as `drive` is its one caller in
    /// the program: all others call this one.
    #[inline(never)]
    pub fn step_apart(&mut self) -> Event
        ensures step { Steps self.old.ended result self.old self.new }
        ensures due { GivenIsDue self.old }
    {
        if let Some(end) = self.ended {
            return Event::Ended(end);
        }
        let instr = self.cpu.next_instr();
        self.make(instr)
    }

    /// The end, once the run has one.
    pub fn ended(&self) -> Option<End>
        ensures { result ≡ self.now.ended }
    {
        self.ended
    }

    /// Gives the byte that the last step wanted, or tells that the input has none left. The next step uses the byte, or ends
    /// the run as `InputEnded`.
    pub fn give_byte(&mut self, byte: Option<u8>)
        requires { WantsAByte self.old }
        ensures { self.new ≡ record self.old { given = Some byte } }
    {
        self.given = Some(byte);
    }

    /// Pushes less pops of the data stack and of the return stack since the start, in cells. Each is held at the ends of `i64`.
    pub fn depths(&self) -> (i64, i64)
        ensures data { result.0 ≡ self.now.depths.data_depth }
        ensures returns { result.1 ≡ self.now.depths.return_depth }
    {
        (self.depths.of_data(), self.depths.of_return())
    }

    /// The accesses of the next instruction; none where the run has ended.
    pub fn accesses(&self) -> Accesses
        ensures { result ≡ next_accesses self.now }
    {
        if self.ended.is_some() {
            return Accesses {
                fetch: None,
                store: None,
            };
        }
        let effect = self.cpu.effect_of(self.cpu.next_instr());
        let address = self.cpu.top() / 2 * 2;
        Accesses {
            fetch: if effect.fetches { Some(address) } else { None },
            store: if effect.stores {
                Some((address, self.cpu.below_top()))
            } else {
                None
            },
        }
    }

    /// What stands in registers and stacks before the next instruction.
    pub fn registers(&self) -> Registers
        ensures { result ≡ registers_of self.now.core }
    {
        self.cpu.registers()
    }

    /// The cell at the address T, where that is in data space: what a fetch of the next instruction gives there.
    pub fn data_cell(&self) -> Option<u16>
        ensures { result ≡ data_cell self.now.data_start self.now.core }
    {
        self.cpu.data_cell(self.fence)
    }

    /// Makes the next instruction, whose one access is at a port between machines (byte addresses 16416 to 16446), and
    /// answers `Went`. A fetch gives `fetched`, and a store changes no memory: the caller keeps what `accesses` told.
    pub fn step_with(&mut self, fetched: u16) -> Event
        requires running { self.old.ended ≡ None }
        requires access { OneAtPort (next_accesses self.old).fetch (next_accesses self.old).store }
        ensures step { AnswersStep None (step_given fetched self.old.core) result self.old self.new }
        ensures went { result ≡ Went }
    {
        let effect = self.cpu.effect_of(self.cpu.next_instr());
        self.cpu.pass_given(effect, fetched);
        self.given = None;
        self.depths.count(effect);
        Event::Went
    }
}
