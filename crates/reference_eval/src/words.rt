// All words.
ghost use Rattle.std.specs.Prelude.{◌≡◌, IsTrue};
ghost use Rattle.forth_program.specs.State.{World};
ghost use Rattle.forth_program.specs.Meaning.{meaning};
ghost use Rattle.reference_eval.specs.declared.shapes.Shape.TheVariants as shapes;
ghost use Rattle.reference_eval.specs.Shapes.{shape_of, is_quiet};
ghost use Rattle.reference_eval.specs.Answers.{Leaves};

use crate::cell_words::{binary_word, ternary_word, unary_word};
use crate::doubles::{extend_word, long_quotient_word, product_word, quotient_word};
use crate::ends::{End, Halt, Stop};
use crate::shapes::{Shape, shape_of_word};
use crate::shuffles::{adding_word, shuffle_four, shuffle_one, shuffle_three, shuffle_two};
use crate::stack::Stack;
use word_table::Word;

// A word that ends the run.
fn ending_word(word: Word, cells: &mut Stack<u16>) -> Result<(), Stop>
    requires { shape_of word ≡ shapes.Ends }
    ensures { (w : World) → Leaves result cells.new (meaning word cells.old w) w }
{
    match word {
        Word::AbortRun => Err(Stop::Halt(Halt::Ended(End::Halted(1)))),
        Word::Quit => Err(Stop::Halt(Halt::Ended(End::Halted(3)))),
        Word::Go => {
            let Some(address) = cells.pop() else {
                return Err(Stop::Underflow);
            };
            Err(Stop::Left(address))
        }
        _ => unreachable!(),
    }
}

/// A word that makes no access and leaves the return entries. Data space begins at `data_start`. A word that stands in no item
/// finds no cells.
pub(crate) fn quiet_word(word: Word, cells: &mut Stack<u16>, data_start: u16) -> Result<(), Stop>
    requires { IsTrue (is_quiet (shape_of word)) }
    ensures { (w : World) → w.data_start ≡ data_start → Leaves result cells.new (meaning word cells.old w) w }
{
    match shape_of_word(word) {
        Shape::Unary => unary_word(word, cells),
        Shape::Binary => binary_word(word, cells),
        Shape::Ternary => ternary_word(word, cells),
        Shape::Adds => adding_word(word, cells, data_start),
        Shape::ShufflesOne => shuffle_one(word, cells),
        Shape::ShufflesTwo => shuffle_two(word, cells),
        Shape::ShufflesThree => shuffle_three(word, cells),
        Shape::ShufflesFour => shuffle_four(word, cells),
        Shape::Extend => extend_word(word, cells),
        Shape::Product => product_word(word, cells),
        Shape::Quotient => quotient_word(word, cells),
        Shape::LongQuotient => long_quotient_word(word, cells),
        Shape::Ends => ending_word(word, cells),
        Shape::NoCode => Err(Stop::Underflow),
        Shape::TakesNone
        | Shape::TakesOne
        | Shape::TakesTwo
        | Shape::TakesThree
        | Shape::TakesFour
        | Shape::Frame => unreachable!(),
    }
}
