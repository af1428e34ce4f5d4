// Which definitions MAIN reaches.
ghost use Rattle.std.specs.Prelude.{◌≡◌, ℕ, ◌<◌, ◌==◌, ◌||◌, false, length, slice_index_or, IfOk};
ghost use Rattle.forth_program.specs.ItemTrees.{tree_of};
ghost use Rattle.step_certifier.specs.Refusal.{calls as calls_in};
ghost use Rattle.step_certifier.specs.Reached.{AreReached};

use crate::calls::calls;
use forth_program::{DefId, Items, Program};
use std::alloc::{AllocError, Global};

// Marks the definitions that a body calls.
fn mark_calls(marks: &mut [bool], count: u16, body: &Items)
    requires { count ≡ length marks.old }
    ensures { (d : ℕ) → d < length marks.old → slice_index_or marks.new d false ≡ (slice_index_or marks.old d false || calls_in d (tree_of body.now)) }
{
    for d in 0..count {
        if calls(DefId(d), body.list()) {
            marks[d as usize] = true;
        }
    }
}

// Marks the definitions that are reached, where MAIN alone is marked. A definition is called by later ones, so the last comes
// first.
fn mark_reached(marks: &mut [bool], program: &Program)
    requires size { length marks.old ≡ length program.now.bodies }
    requires main { (d : ℕ) → slice_index_or marks.old d false ≡ (d == program.now.main_body) }
    ensures { AreReached program.now marks.new }
{
    let count = program.def_count();
    let mut d = count;
    while d > 0 {
        d = d - 1;
        if marks[d as usize] {
            mark_calls(marks, count, program.body(DefId(d)));
        }
    }
}

/// Whether MAIN reaches each definition, by calls and children.
pub(crate) fn reached(alloc: Global, program: &Program) -> Result<Vec<bool>, AllocError>
    ensures { IfOk result (λ marks. AreReached program.now marks.items) }
{
    let mut marks = vec![in alloc; false; program.def_count() as usize]?;
    marks[program.main().0 as usize] = true;
    mark_reached(marks.as_mut_slice(), program);
    Ok(marks)
}
