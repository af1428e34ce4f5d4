// One word step: the first work of the newest frame.
ghost use Rattle.std.specs.Prelude.{IsTrue, List, ℕ};
ghost use Rattle.forth_program.specs.declared.item.TextKind.TheVariants as kinds;
ghost use Rattle.forth_program.specs.State.{World, Reply, Stops, Halted, ◌▸◌};
ghost use Rattle.forth_program.specs.ItemTrees.{node_of};
ghost use Rattle.forth_program.specs.Parts.{token_node};
ghost use Rattle.forth_program.specs.Step as step;
ghost use Rattle.reference_eval.specs.Work.{is_open_node};
ghost use Rattle.reference_eval.specs.Outside.{Scene, scene, input_of};
ghost use Rattle.reference_eval.specs.Answers.{Does, answer_of, cells_answer};
ghost use Rattle.reference_eval.specs.Machine.{Makes};

use crate::access_words::{
    done, four_cell_word, no_cell_word, one_cell_word, three_cell_word, two_cell_word,
};
use crate::byte_words::type_out;
use crate::ends::{End, Halt, Stop};
use crate::machine::Machine;
use crate::memory::Memory;
use crate::shapes::{Shape, shape_of_word};
use crate::shuffles::put;
use crate::words::quiet_word;
use crate::work::{First, take_first};
use forth_program::{Item, Program, TextKind, Token};
use outside_io::{Sink, Source};
use word_table::Word;

// What accesses answer, as the answer of a word that ends the run behind them.
fn aborted(answer: Result<(), Halt>) -> Result<(), Stop>
    ensures { (meant : World → Reply (Unit {0})) (cells : List ℕ) (old new : Scene) → Does meant (answer_of answer) old new →
        Does {A = List ℕ} (λ w. meant w ▸ λ _. Stops (Halted 2)) (cells_answer result cells) old new }
{
    match answer {
        Ok(()) => Err(Stop::Halt(Halt::Ended(End::Halted(2)))),
        Err(halt) => Err(Stop::Halt(halt)),
    }
}

impl<'a> Machine<'a> {
    // A word.
    fn word<C: Source, O: Sink>(
        &mut self,
        program: &'a Program,
        word: Word,
        memory: &mut Memory,
        console: &mut C,
        out: &mut O,
    ) -> Result<(), Stop>
        ensures { Makes (λ s. step.word_step program.now word s.cells s.entries s) result self.old self.new
            (scene memory.old (input_of (C.left console.old) (C.calls console.old)) (C.faults console.old) (O.held out.old) (O.faults out.old))
            (scene memory.new (input_of (C.left console.new) (C.calls console.new)) (C.faults console.new) (O.held out.new) (O.faults out.new)) }
    {
        match shape_of_word(word) {
            Shape::Frame => self.frame_word(program, word),
            Shape::TakesNone => no_cell_word(word, &mut self.cells, memory, console, out),
            Shape::TakesOne => one_cell_word(word, &mut self.cells, memory, console, out),
            Shape::TakesTwo => two_cell_word(word, &mut self.cells, memory, console, out),
            Shape::TakesThree => three_cell_word(word, &mut self.cells, memory, console, out),
            Shape::TakesFour => four_cell_word(word, &mut self.cells, memory, console, out),
            _ => quiet_word(word, &mut self.cells, memory.data_start()),
        }
    }

    // `ABORT"`: where the flag is not 0, the text is printed and the run ends.
    fn abort_text<C: Source, O: Sink>(
        &mut self,
        address: u16,
        size: u16,
        memory: &mut Memory,
        console: &mut C,
        out: &mut O,
    ) -> Result<(), Stop>
        ensures { Makes (λ s. step.text_step kinds.Abort address size s.cells s) result self.old self.new
            (scene memory.old (input_of (C.left console.old) (C.calls console.old)) (C.faults console.old) (O.held out.old) (O.faults out.old))
            (scene memory.new (input_of (C.left console.new) (C.calls console.new)) (C.faults console.new) (O.held out.new) (O.faults out.new)) }
    {
        let Some(flag) = self.cells.pop() else {
            return Err(Stop::Underflow);
        };
        if flag == 0 {
            return Ok(());
        }
        aborted(type_out(size, address, memory, console, out))
    }

    // A string word, of which the text lies in data space.
    fn text<C: Source, O: Sink>(
        &mut self,
        kind: TextKind,
        address: u16,
        size: u16,
        memory: &mut Memory,
        console: &mut C,
        out: &mut O,
    ) -> Result<(), Stop>
        ensures { Makes (λ s. step.text_step kind address size s.cells s) result self.old self.new
            (scene memory.old (input_of (C.left console.old) (C.calls console.old)) (C.faults console.old) (O.held out.old) (O.faults out.old))
            (scene memory.new (input_of (C.left console.new) (C.calls console.new)) (C.faults console.new) (O.held out.new) (O.faults out.new)) }
    {
        match kind {
            TextKind::Address => put(&mut self.cells, &[address, size]),
            TextKind::Print => done(type_out(size, address, memory, console, out)),
            TextKind::Abort => self.abort_text(address, size, memory, console, out),
        }
    }

    // The item of an execution token.
    fn token<C: Source, O: Sink>(
        &mut self,
        program: &'a Program,
        token: Token,
        memory: &mut Memory,
        console: &mut C,
        out: &mut O,
    ) -> Result<(), Stop>
        ensures { Makes (λ s. step.act program.now (step.first_in (token_node token) s.work) s) result self.old self.new
            (scene memory.old (input_of (C.left console.old) (C.calls console.old)) (C.faults console.old) (O.held out.old) (O.faults out.old))
            (scene memory.new (input_of (C.left console.new) (C.calls console.new)) (C.faults console.new) (O.held out.new) (O.faults out.new)) }
    {
        match token {
            Token::Def(id) => self.call(program, id),
            Token::Table(word) => self.word(program, word, memory, console, out),
            Token::Value(value) => put(&mut self.cells, &[value]),
            Token::Child(id, address) => {
                self.cells.push(address)?;
                self.call(program, id)
            }
        }
    }

    // An item that is no BEGIN and no CASE.
    fn item<C: Source, O: Sink>(
        &mut self,
        program: &'a Program,
        item: &'a Item,
        memory: &mut Memory,
        console: &mut C,
        out: &mut O,
    ) -> Result<(), Stop>
        requires { IsTrue (is_open_node (node_of item.now)) }
        ensures { Makes (λ s. step.act program.now (step.first_in (node_of item.now) s.work) s) result self.old self.new
            (scene memory.old (input_of (C.left console.old) (C.calls console.old)) (C.faults console.old) (O.held out.old) (O.faults out.old))
            (scene memory.new (input_of (C.left console.new) (C.calls console.new)) (C.faults console.new) (O.held out.new) (O.faults out.new)) }
    {
        match item {
            Item::Word(word) => self.word(program, *word, memory, console, out),
            Item::Text(kind, address, size) => {
                self.text(*kind, *address, *size, memory, console, out)
            }
            _ => self.structure(program, item),
        }
    }

    /// One word step.
    pub(crate) fn step<C: Source, O: Sink>(
        &mut self,
        program: &'a Program,
        memory: &mut Memory,
        console: &mut C,
        out: &mut O,
    ) -> Result<(), Stop>
        ensures { Makes (step.step program.now) result self.old self.new
            (scene memory.old (input_of (C.left console.old) (C.calls console.old)) (C.faults console.old) (O.held out.old) (O.faults out.old))
            (scene memory.new (input_of (C.left console.new) (C.calls console.new)) (C.faults console.new) (O.held out.new) (O.faults out.new)) }
    {
        let first = take_first(&mut self.tasks)?;
        match first {
            First::Item(item) => self.item(program, item, memory, console, out),
            First::Token(token) => self.token(program, token, memory, console, out),
            mark => self.mark(program, mark),
        }
    }
}
