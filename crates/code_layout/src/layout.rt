// The image of a program.
ghost use Rattle.std.specs.Prelude.{◌≡◌, ◌+◌, ◌<◌, ◌≤◌, ◌++◌, length, slice_index, slice_index_or, take, IfOk, OnOk, true};
ghost use Rattle.std.specs.List.{list_all};
ghost use Rattle.forth_program.specs.Form.{everywhere};
ghost use Rattle.forth_program.specs.ItemTrees.{tree_of};
ghost use Rattle.forth_program.specs.Tree.{Empty};
ghost use Rattle.code_layout.specs.Built.{is_laid_out, IsBuilt};
ghost use Rattle.code_layout.specs.Layout.{type_routine, header, bodies_cells, bodies_size, execute_cells, abort_cells, laid_out};
ghost use Rattle.code_layout.specs.Library.{IsLibrary};
ghost use Rattle.code_layout.specs.Places.{ArePlaces, PlacesOf, places_from, place_by, word_count, definition_count, library_of};

use crate::cells::{add_abort, add_execute, add_leaving, call_cell};
use crate::emission::add_body;
use crate::places::{Places, TYPE};
use crate::sizes::body_size;
use crate::tokens::{add_token_jumps, add_tokens, tokens_size};
use forth_program::{DefId, Items, Program};
use j1_table::Image;
use std::alloc::{AllocError, Global};

// One of the first so many definitions.
fn body_of(program: &Program, count: u16, definition: u16) -> &Items
    requires count { count ≤ length program.now.bodies }
    requires definition { definition < count }
    ensures { tree_of result.now ≡ slice_index_or (take count program.now.bodies) definition Empty }
{
    program.body(DefId(definition))
}

// Where each of the first so many definitions begins.
fn places_of(
    alloc: Global,
    program: &Program,
    count: u16,
    first: u16,
) -> Result<Vec<u16>, AllocError>
    requires count { count ≤ length program.now.bodies }
    requires room { first + bodies_size (take count program.now.bodies) ≤ 8000 }
    ensures { IfOk result (λ places. places.items ≡ places_from first (take count program.now.bodies)) }
{
    let mut places = Vec::new(alloc);
    let mut at: u16 = first;
    for definition in 0..count {
        places.push(at)?;
        at = at + body_size(body_of(program, count, definition));
    }
    Ok(places)
}

// The cells of the first so many definitions, with their returns.
fn code_size(program: &Program, count: u16) -> u16
    requires count { count ≤ length program.now.bodies }
    requires room { bodies_size (take count program.now.bodies) ≤ 8000 }
    ensures { result ≡ bodies_size (take count program.now.bodies) }
{
    let mut total: u16 = 0;
    for definition in 0..count {
        total = total + body_size(body_of(program, count, definition));
    }
    total
}

fn place_of(places: &Places, definition: DefId) -> u16
    requires { definition.0 < definition_count places.now }
    ensures { result ≡ slice_index places.now.definitions.items definition.0 }
{
    places.definitions[definition.0 as usize]
}

// Cells 0 to 7: MAIN is called, and then 0 is stored at the halt port.
fn header_cells(alloc: Global, main_at: u16) -> Result<Vec<u16>, AllocError>
    requires { main_at < 8192 }
    ensures { IfOk result (λ code. code.items ≡ header main_at) }
{
    Vec::from_slice(
        alloc,
        &[call_cell(main_at), 0x8000, 0xC004, 0x6023, 0, 0, 0, 0],
    )
}

// The code of the first so many definitions, each with a return where it is reached.
fn add_bodies(
    code: &mut Vec<u16>,
    program: &Program,
    count: u16,
    places: &Places,
    data_start: u16,
) -> Result<(), AllocError>
    requires start { data_start ≤ 16000 }
    requires count { count ≤ length program.now.bodies }
    requires places { ArePlaces places.now }
    requires laid_out { list_all (everywhere (is_laid_out true (word_count places.now) (definition_count places.now))) (take count program.now.bodies) ≡ true }
    requires room { length code.old.items + bodies_size (take count program.now.bodies) ≤ 8000 }
    ensures { OnOk result (code.new.items ≡ code.old.items ++ bodies_cells data_start (place_by places.now) (length code.old.items) (take count program.now.bodies)) }
{
    for definition in 0..count {
        add_body(
            code,
            body_of(program, count, definition),
            places,
            data_start,
        )?;
    }
    Ok(())
}

fn token_count(program: &Program) -> u16
    requires { length program.now.tokens ≤ 8000 }
    ensures { result ≡ length program.now.tokens }
{
    program.tokens().len() as u16
}

// Where the routines of a library and of a program begin.
fn routine_places(alloc: Global, library: &Program, program: &Program) -> Result<Places, AllocError>
    requires { IsBuilt (library_of library.now) program.now }
    ensures { IfOk result (λ places. PlacesOf (library_of library.now) program.now places) }
{
    let count = library.main().0;
    let first = 8 + token_count(program);
    let execute = first + code_size(library, count);
    let abort = execute + 15;
    let words = places_of(alloc, library, count, first)?;
    let defined = program.def_count();
    let definitions = places_of(alloc, program, defined, abort + 15)?;
    let tokens = abort + 15 + code_size(program, defined);
    let leaving = tokens + tokens_size(program.tokens());
    Ok(Places {
        words,
        definitions,
        execute,
        abort,
        tokens,
        leaving,
    })
}

// Where TYPE begins, if the library has it.
#[tactic(auto, using(crate::proofs::DefinitionPlaces::past_places), unfolding(crate::specs::Places::place_by))]
fn type_place(places: &Places) -> u16
    requires { ArePlaces places.now }
    ensures value { result ≡ place_by places.now type_routine }
    ensures low { result < 8192 }
{
    if places.words.len() > TYPE {
        places.words[TYPE]
    } else {
        0
    }
}

// The code of the library words, of `EXECUTE` and of `ABORT"`.
fn add_library(
    code: &mut Vec<u16>,
    library: &Program,
    places: &Places,
    token_count: u16,
    data_start: u16,
) -> Result<(), AllocError>
    requires start { data_start ≤ 16000 }
    requires places { ArePlaces places.now }
    requires laid_out { list_all (everywhere (is_laid_out true (word_count places.now) (definition_count places.now))) (library_of library.now) ≡ true }
    requires room { length code.old.items + bodies_size (library_of library.now) ≤ 8000 }
    requires execute { places.now.execute ≤ 8000 }
    requires abort { places.now.abort ≤ 8000 }
    requires tokens { token_count ≤ 8000 }
    ensures { OnOk result (code.new.items ≡ code.old.items ++ (bodies_cells data_start (place_by places.now) (length code.old.items) (library_of library.now) ++ (execute_cells places.now.execute token_count ++ abort_cells places.now.abort (place_by places.now type_routine)))) }
{
    add_bodies(code, library, library.main().0, places, data_start)?;
    add_execute(code, places.execute, token_count)?;
    add_abort(code, places.abort, type_place(places))
}

// The header, the jumps of the tokens, the code of the library and of all definitions, that of the tokens, and that of GO.
fn code_of(alloc: Global, library: &Program, program: &Program) -> Result<Vec<u16>, AllocError>
    requires library { IsLibrary (library_of library.now) }
    requires program { IsBuilt (library_of library.now) program.now }
    ensures { IfOk result (λ code. code.items ≡ (laid_out (library_of library.now) program.now).cells) }
{
    let places = routine_places(alloc, library, program)?;
    let count = program.def_count();
    let tokens = program.tokens();
    let data_start = program.data_start();
    let mut code = header_cells(alloc, place_of(&places, program.main()))?;
    add_token_jumps(&mut code, tokens, &places, places.tokens)?;
    add_library(
        &mut code,
        library,
        &places,
        token_count(program),
        data_start,
    )?;
    add_bodies(&mut code, program, count, &places, data_start)?;
    add_tokens(&mut code, tokens, &places, data_start)?;
    add_leaving(&mut code, program.uses_go())?;
    Ok(code)
}

/// The image of a program with a library, whose words are the definitions before its MAIN. Cells 0 to 7 call the program's MAIN
/// and halt with 0. There follow a jump for each execution token, the code of each library word, that of `EXECUTE` and of `ABORT"`,
/// that of each definition, that of the tokens that have none, and that of `GO`, if it is used. Last calls are jumps. An error is want of memory.
pub fn lay_out(alloc: Global, library: &Program, program: &Program) -> Result<Image, AllocError>
    requires library { IsLibrary (library_of library.now) }
    requires program { IsBuilt (library_of library.now) program.now }
    ensures { IfOk result (λ image. image ≡ laid_out (library_of library.now) program.now) }
{
    let code = code_of(alloc, library, program)?;
    Image::split(
        alloc,
        code.as_slice(),
        program.space(),
        program.data_start(),
    )
}
