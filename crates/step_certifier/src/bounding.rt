// The step bound of a program.
ghost use Rattle.std.specs.Prelude.{◌≡◌, ℕ, ◌+◌, ◌<◌, nat_lt, if◌then◌else◌, true, Some, None, length, map, option_map, slice_index_or, IfOk, IfErr, IfSome};
ghost use Rattle.step_certifier.specs.declared.bound.BoundError.TheVariants.{OutOfMemory};
ghost use Rattle.forth_program.specs.Form.{has_no_go};
ghost use Rattle.step_certifier.specs.Capped.{capped, most_steps};
ghost use Rattle.step_certifier.specs.Cost.{costs as costs_in};
ghost use Rattle.step_certifier.specs.Bound.{refused_item, Answers, NamesDefinition};
ghost use Rattle.step_certifier.specs.Law.{EndsOnChip};
ghost use Rattle.library_laws.specs.Bodies.{whole_library};
ghost use Rattle.depth_certifier.specs.Certificate.{IsValid};
ghost use Rattle.code_layout.specs.Layout.{laid_out};
ghost use Rattle.code_layout.specs.Built.{IsBuilt};
ghost use Rattle.code_layout.specs.Agreement.{AreBytes};
ghost use Rattle.step_certifier.specs.Reached.{AreReached};

use crate::bound::{BoundCause, BoundError, StepBound};
use crate::capped::MOST_STEPS;
use crate::costs::items_cost;
use crate::laws::bounded_images_end;
use crate::reached::reached;
use crate::refusals::items_refusal;
use depth_certifier::Certificate;
use forth_library::library_means;
use forth_program::{DefId, Program};
use j1_table::Image;
use std::alloc::{AllocError, Global};

// The first refused item of the definitions that are reached, in the order of the source: its definition, and why.
fn first_refused(program: &Program, marks: &[bool]) -> Option<(DefId, BoundCause)>
    requires { AreReached program.now marks.now }
    ensures found { option_map (λ found. (found.0.0, found.1)) result ≡ refused_item program.now }
    ensures named { IfSome result (λ found. found.0.0 < length program.now.bodies) }
{
    for d in 0..program.def_count() {
        if marks[d as usize] {
            if let Some(cause) = items_refusal(d, program.body(DefId(d)).list()) {
                return Some((DefId(d), cause));
            }
        }
    }
    None
}

// What the items of each definition cost.
fn costs(alloc: Global, program: &Program) -> Result<Vec<u64>, AllocError>
    ensures items { IfOk result (λ costs. costs.items ≡ map capped (costs_in program.now.bodies)) }
    ensures size { IfOk result (λ costs. length costs.items ≡ length program.now.bodies) }
{
    let mut costs = Vec::new(alloc);
    for d in 0..program.def_count() {
        let cost = items_cost(costs.as_slice(), program.body(DefId(d)).list());
        costs.push(cost)?;
    }
    Ok(costs)
}

// What the items of one definition cost.
fn cost_of(costs: &[u64], definition: DefId) -> u64
    requires { definition.0 < length costs.now }
    ensures { result ≡ slice_index_or costs.now definition.0 0 }
{
    costs[definition.0 as usize]
}

// The steps of a run, with its start and its end, by what the items of MAIN cost; none where they are too many.
fn steps_for(cost: u64) -> Option<u64>
    ensures { (items : ℕ) → cost ≡ capped items → result ≡ (if nat_lt most_steps (8 + (items + 1)) then None else Some (8 + (items + 1))) }
{
    if cost > MOST_STEPS - 9 {
        None
    } else {
        Some(cost + 9)
    }
}

impl From<AllocError> for BoundError {
    ghost from_gives = { λ _ e. e ≡ OutOfMemory };

    fn from(_: AllocError) -> BoundError {
        BoundError::OutOfMemory
    }
}

/// The step bound of a program: a number of instructions within which the run of its image ends on every input. It is the price of
/// the start, of the items of MAIN whichever way they go, and of the end. Where the definitions that MAIN reaches have items
/// without a bound, the first of these in the source is refused; and where the bound is over 1,000,000,000,000,000,000, MAIN is.
/// The program has no `GO`, which would lead its run out of it. The certificate and the image are for what is said of the run. An error without a refusal is want of memory.
pub fn step_bound(
    alloc: Global,
    program: &Program,
    certificate: &Certificate,
    image: &Image,
) -> Result<StepBound, BoundError>
    requires built { IsBuilt whole_library program.now }
    requires bytes { AreBytes program.now.first_space }
    requires without_go { has_no_go program.now ≡ true }
    requires certified { IsValid program.now certificate.now }
    requires laid_out { image.now ≡ laid_out whole_library program.now }
    ensures answer { Answers program.now result }
    ensures named { IfErr result (λ error. NamesDefinition program.now error) }
    ensures ends { IfOk result (λ bound. EndsOnChip image.now bound.steps) }
{
    library_means();
    bounded_images_end();
    let marks = reached(alloc, program)?;
    if let Some((definition, cause)) = first_refused(program, marks.as_slice()) {
        return Err(BoundError::Refused(definition, cause));
    }
    let costs = costs(alloc, program)?;
    let main = program.main();
    match steps_for(cost_of(costs.as_slice(), main)) {
        None => Err(BoundError::Refused(main, BoundCause::TooLarge)),
        Some(steps) => Ok(StepBound { steps }),
    }
}
