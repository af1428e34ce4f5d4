// Words on return entries, and EXECUTE.
ghost use Rattle.std.specs.Prelude.{◌≡◌};
ghost use Rattle.forth_program.specs.State.{World};
ghost use Rattle.forth_program.specs.Step as step;
ghost use Rattle.reference_eval.specs.declared.shapes.Shape.TheVariants as shapes;
ghost use Rattle.word_table.specs.declared.word.Word.TheVariants as words;
ghost use Rattle.reference_eval.specs.Shapes.{shape_of};
ghost use Rattle.reference_eval.specs.Machine.{Acts, state_of};

use crate::ends::{End, Halt, Stop};
use crate::machine::{Entry, Machine};
use crate::work::Task;
use forth_program::Program;
use word_table::Word;

impl<'a> Machine<'a> {
    // EXECUTE: the item of a token comes before the other work.
    fn execute(&mut self, program: &'a Program) -> Result<(), Stop>
        ensures { (w : World) → Acts result (step.word_step program.now words.Execute (state_of self.old w).cells (state_of self.old w).entries (state_of self.old w)) (state_of self.new w) }
    {
        let Some(token) = self.cells.pop() else {
            return Err(Stop::Underflow);
        };
        if token == 0 {
            return Err(Stop::Halt(Halt::Ended(End::Halted(13))));
        }
        match program.tokens().get(usize::from(token - 1)) {
            None => Err(Stop::Halt(Halt::Ended(End::Halted(13)))),
            Some(token) => {
                self.tasks.push(Task::Token(*token))?;
                Ok(())
            }
        }
    }

    /// A word on return entries, or EXECUTE.
    pub(crate) fn frame_word(&mut self, program: &'a Program, word: Word) -> Result<(), Stop>
        requires { shape_of word ≡ shapes.Frame }
        ensures { (w : World) → Acts result (step.word_step program.now word (state_of self.old w).cells (state_of self.old w).entries (state_of self.old w)) (state_of self.new w) }
    {
        match word {
            Word::ToR => {
                let Some(x) = self.cells.pop() else {
                    return Err(Stop::Underflow);
                };
                self.entries.push(Entry::Cell(x))?;
                Ok(())
            }
            Word::RFrom => {
                let Some(Entry::Cell(x)) = self.entries.pop() else {
                    return Err(Stop::Unbalanced);
                };
                self.cells.push(x)?;
                Ok(())
            }
            Word::RFetch => {
                let Some(Entry::Cell(x)) = self.entries.pop() else {
                    return Err(Stop::Unbalanced);
                };
                self.entries.push(Entry::Cell(x))?;
                self.cells.push(x)?;
                Ok(())
            }
            Word::Index => {
                let Some(Entry::Loop(limit, index)) = self.entries.pop() else {
                    return Err(Stop::Unbalanced);
                };
                self.entries.push(Entry::Loop(limit, index))?;
                self.cells.push(index)?;
                Ok(())
            }
            Word::OuterIndex => {
                let Some(Entry::Loop(limit, index)) = self.entries.pop() else {
                    return Err(Stop::Unbalanced);
                };
                let Some(Entry::Loop(outer_limit, outer_index)) = self.entries.pop() else {
                    return Err(Stop::Unbalanced);
                };
                self.entries.push(Entry::Loop(outer_limit, outer_index))?;
                self.entries.push(Entry::Loop(limit, index))?;
                self.cells.push(outer_index)?;
                Ok(())
            }
            Word::Unloop => {
                let Some(Entry::Loop(_, _)) = self.entries.pop() else {
                    return Err(Stop::Unbalanced);
                };
                Ok(())
            }
            Word::Execute => self.execute(program),
            _ => unreachable!(),
        }
    }
}
