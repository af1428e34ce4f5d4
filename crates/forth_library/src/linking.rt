// The library as a program, and images with it.
ghost use Rattle.std.specs.Prelude.{◌≡◌, ◌<◌, ◌≤◌, ◌-◌, ◌++◌, length, take, IfOk};
ghost use Rattle.control_flow.specs.ParseResult.{Fine};
ghost use Rattle.control_flow.specs.SourceText.{program_of_text};
ghost use Rattle.library_laws.specs.Bodies.{whole_library};
ghost use Rattle.code_layout.specs.Built.{IsBuilt};
ghost use Rattle.code_layout.specs.Layout.{laid_out};
ghost use Rattle.code_layout.specs.Places.{library_of};
ghost use Rattle.forth_library.specs.Definitions.{library_definitions, library_text};

use crate::laws::{library_means, library_text_is_read};
use arithmetic_words::arithmetic_text;
use code_layout::lay_out;
use control_flow::{SourceError, read_program};
use forth_program::Program;
use j1_table::Image;
use pictured_output::pictured_text;
use std::alloc::{AllocError, Global};

// Two texts as one, the first without so many bytes at its end.
fn joined(alloc: Global, first: &str, second: &str, end: usize) -> Result<Vec<u8>, AllocError>
    requires { end ≤ length first.now }
    ensures { IfOk result (λ text. text.items ≡ take (length first.now - end) first.now ++ second.now) }
{
    let bytes = first.as_bytes();
    let mut text = Vec::from_slice(alloc, &bytes[..bytes.len() - end])?;
    text.extend_from_slice(second.as_bytes())?;
    Ok(text)
}

// The program of the library's text.
fn definitions_of(alloc: Global, text: &[u8]) -> Result<Program, AllocError>
    requires short { length text.now < 4294967295 }
    requires is_library { program_of_text text.now ≡ Fine library_definitions }
    ensures { IfOk result (λ program. program ≡ library_definitions) }
{
    match read_program(alloc, text) {
        Ok(program) => Ok(program),
        Err(SourceError::OutOfMemory) => Err(AllocError),
        Err(_) => unreachable!(),
    }
}

/// The library as a program: a definition for each library word in the order of the texts, and an empty MAIN. An error is want of memory.
pub fn library_program(alloc: Global) -> Result<Program, AllocError>
    ensures read { IfOk result (λ program. program_of_text library_text ≡ Fine program) }
    ensures bodies { IfOk result (λ program. library_of program ≡ whole_library) }
{
    library_text_is_read();
    let text = joined(
        alloc,
        arithmetic_text(),
        pictured_text(),
        ": MAIN ;\n".len(),
    )?;
    definitions_of(alloc, text.as_slice())
}

/// The image of a built program with the whole library. An error is want of memory.
pub fn linked_image(alloc: Global, program: &Program) -> Result<Image, AllocError>
    requires { IsBuilt whole_library program.now }
    ensures { IfOk result (λ image. image ≡ laid_out whole_library program.now) }
{
    library_means();
    let library = library_program(alloc)?;
    lay_out(alloc, &library, program)
}
