// The text of a certificate.
ghost use Rattle.std.specs.Prelude.{◌≡◌, IfOk, string_bytes};
ghost use Rattle.depth_certifier.specs.CertificateText.{effect_line, exit_text, shared_line, certificate_text as text_of};
ghost use Rattle.depth_certifier.specs.Counting.{uses_execute as execute_is_used};

use crate::certificate::Certificate;
use crate::counting::uses_execute;
use crate::demands::definition;
use crate::effect::Effect;
use forth_program::{DefId, Program};
use std::alloc::{AllocError, Global};

// The least and the greatest change, or that there is none.
fn exit(alloc: Global, effect: Effect) -> Result<String, AllocError>
    ensures { IfOk result (λ text. string_bytes text ≡ exit_text effect.exit) }
{
    match effect.exit {
        None => format!(in alloc; "never"),
        Some((low, high)) => format!(in alloc; "{low} {high}"),
    }
}

// The line of an effect.
fn line(alloc: Global, name: &str, effect: Effect) -> Result<String, AllocError>
    ensures { IfOk result (λ text. string_bytes text ≡ effect_line name.now effect) }
{
    let need = effect.need;
    let peak = effect.peak;
    let back = effect.back;
    let exit = exit(alloc, effect)?;
    format!(in alloc; "{name} need {need} peak {peak} back {back} exit {exit}\n")
}

// The line of the shared effect, where there is one.
fn last_line(alloc: Global, program: &Program, shared: Effect) -> Result<String, AllocError>
    ensures { IfOk result (λ text. string_bytes text ≡ shared_line (execute_is_used program.now) shared) }
{
    if uses_execute(program) {
        line(alloc, "*", shared)
    } else {
        Ok(String::new(alloc))
    }
}

/// A line for each definition of a program, in the order of the source, with its effect by a certificate, and a last one, named `*`,
/// with the shared effect where `EXECUTE` stands in a body. An error is want of memory.
pub fn certificate_text(
    alloc: Global,
    program: &Program,
    certificate: &Certificate,
) -> Result<String, AllocError>
    ensures { IfOk result (λ text. string_bytes text ≡ text_of program.now certificate.now) }
{
    let effects = certificate.effects();
    let mut text = String::new(alloc);
    let count = effects.len().min(program.def_count() as usize);
    for d in 0..count {
        let id = DefId(d as u16);
        let line = line(alloc, program.name(id), definition(effects, id))?;
        text.push_str(line.as_str())?;
    }
    let last = last_line(alloc, program, certificate.shared())?;
    text.push_str(last.as_str())?;
    Ok(text)
}
