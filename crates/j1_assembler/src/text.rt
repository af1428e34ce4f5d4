// A whole text.
ghost use Rattle.std.specs.Prelude.{◌≡◌, ℕ, List, ◌+◌, ◌<◌, ◌≤◌, ◌^◌, length, MatchResult, MatchOption, IfOk, IfErr, IfSome, Option};
ghost use Rattle.console_ports.specs.DataSpace.{IsDataStart};
ghost use Rattle.j1_assembler.specs.Text.{lines_of, fields_of};
ghost use Rattle.j1_assembler.specs.Labels.{found_in};
ghost use Rattle.j1_assembler.specs.declared.labels.Definition.{Definition};
ghost use Rattle.j1_assembler.specs.Assembly.{header_outcome, text_outcome, lines_outcome, opened, assembled, Refused};
ghost use Rattle.j1_assembler.specs.Answers.{Gives, CauseGives, Opens};
ghost use Rattle.j1_assembler.specs.Grammar.{Assembles};
ghost use Rattle.j1_assembler.specs.FirstBad.{IsRefusal};

use crate::assembler::{Assembler, Section};
use crate::fields::next_field;
use crate::labels::{Labels, labels_of};
use crate::laws::{assembles_by_grammar, refuses_first_bad};
use crate::lines::{is_formed, next_line};
use crate::refusal::{AsmCause, AsmError, LineError};
use crate::rows::header_of;
use j1_table::Image;
use std::alloc::{AllocError, Global};

// The data start of a header line; a line without fields has none.
fn header_line(line: &[u8]) -> Result<Option<u16>, AsmCause>
    ensures gives { CauseGives result (header_outcome line.now (fields_of line.now)) }
    ensures room { IfOk result (λ found. IfSome found (λ start. IsDataStart start)) }
{
    if next_field(line).is_none() {
        return if is_formed(line) {
            Ok(None)
        } else {
            Err(AsmCause::Form)
        };
    }
    let Some(start) = header_of(line) else {
        return Err(AsmCause::Header);
    };
    if is_formed(line) {
        Ok(Some(start))
    } else {
        Err(AsmCause::Form)
    }
}

// Where the lines behind the header begin.
#[derive(Clone, Copy)]
struct Opening<'a> {
    data_start: u16,
    number: u32,
    rest: &'a [u8],
}

// Goes over the header.
fn opening_of(text: &[u8]) -> Result<Opening<'_>, (u32, AsmCause)>
    requires { length text.now < 4294967295 }
    ensures { MatchResult result
        (λ opening. Opens text.now opening.data_start opening.number opening.rest.now)
        (λ refusal. (find : List ℕ → Option Definition) → text_outcome find 1 (lines_of text.now) ≡ Refused refusal.0 refusal.1) }
{
    let mut number: u32 = 1;
    let mut rest = text;
    while let Some((line, behind)) = next_line(rest) {
        match header_line(line) {
            Ok(Some(data_start)) => {
                return Ok(Opening {
                    data_start,
                    number: number + 1,
                    rest: behind,
                });
            }
            Ok(None) => {}
            Err(cause) => return Err((number, cause)),
        }
        number += 1;
        rest = behind;
    }
    Err((number, AsmCause::NoEnd))
}

// The image of the lines behind the header.
fn image_of(alloc: Global, labels: &Labels<'_>, opening: Opening<'_>) -> Result<Image, AsmError>
    requires room { IsDataStart opening.data_start }
    requires bound { opening.number + length opening.rest.now < 2 ^ 32 }
    ensures { Gives (λ image. image) result (lines_outcome (found_in labels.now) opening.entry.number (opened opening.entry.data_start) (lines_of opening.entry.rest.now)) }
{
    let mut assembler = Assembler::new(alloc, opening.data_start);
    let mut number = opening.number;
    let mut rest = opening.rest;
    while let Some((line, behind)) = next_line(rest) {
        match assembler.line(labels, number, line) {
            Ok(()) => {}
            Err(LineError::Fault(cause)) => return Err(AsmError::Refused(number, cause)),
            Err(LineError::OutOfMemory) => return Err(AsmError::OutOfMemory),
        }
        number += 1;
        rest = behind;
    }
    if assembler.section() != Section::End {
        return Err(AsmError::Refused(number, AsmCause::NoEnd));
    }
    match assembler.image(alloc) {
        Ok(image) => Ok(image),
        Err(AllocError) => Err(AsmError::OutOfMemory),
    }
}

// The image of a text, or its first bad line.
fn image_or_refusal(alloc: Global, bytes: &[u8]) -> Result<Image, AsmError>
    requires { length bytes.now < 4294967295 }
    ensures { Gives (λ image. image) result (assembled bytes.now) }
{
    let labels = match labels_of(alloc, bytes) {
        Ok(labels) => labels,
        Err(AllocError) => return Err(AsmError::OutOfMemory),
    };
    match opening_of(bytes) {
        Ok(opening) => image_of(alloc, &labels, opening),
        Err((line, cause)) => Err(AsmError::Refused(line, cause)),
    }
}

/// The image of an assembly text.
///
/// It is refused exactly where it is no assembly text, with its first bad line, counted from 1, and the cause. A text that
/// ends early is refused at the line behind its last.
#[tactic(auto, using(crate::proofs::Judged::image_is, crate::proofs::Judged::refusal_is))]
pub fn assemble(alloc: Global, bytes: &[u8]) -> Result<Image, AsmError>
    requires { length bytes.now < 4294967295 }
    ensures image { IfOk result (λ image. Assembles bytes.now image) }
    ensures refused { IfErr result (λ error. IsRefusal bytes.now error) }
{
    assembles_by_grammar();
    refuses_first_bad();
    image_or_refusal(alloc, bytes)
}
