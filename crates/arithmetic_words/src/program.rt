// The program of the text.
ghost use Rattle.std.specs.Prelude.{◌≡◌, IfOk};
ghost use Rattle.control_flow.specs.ParseResult.{Fine};
ghost use Rattle.control_flow.specs.SourceText.{program_of_text};
ghost use Rattle.library_laws.specs.Bodies.{arithmetic_words};
ghost use Rattle.library_laws.specs.Library.{MeanWords};
ghost use Rattle.arithmetic_words.specs.Program.{arithmetic_library};

use crate::laws::arithmetic_text_is_read;
use crate::text::ARITHMETIC_TEXT;
use control_flow::{SourceError, read_program};
use forth_program::Program;
use library_laws::bodies_mean_words;
use std::alloc::{AllocError, Global};

/// The program of the text: a definition for each word, which does what the word means at no more than its price, and an empty MAIN. An
/// error is want of memory.
pub fn arithmetic_program(alloc: Global) -> Result<Program, AllocError>
    ensures read { IfOk result (λ program. program_of_text ARITHMETIC_TEXT.now ≡ Fine program) }
    ensures words { IfOk result (λ program. program ≡ arithmetic_library) }
    ensures meanings { IfOk result (λ program. MeanWords program.bodies arithmetic_words) }
{
    arithmetic_text_is_read();
    bodies_mean_words();
    match read_program(alloc, ARITHMETIC_TEXT.as_bytes()) {
        Ok(program) => Ok(program),
        Err(SourceError::OutOfMemory) => Err(AllocError),
        Err(_) => unreachable!(),
    }
}
