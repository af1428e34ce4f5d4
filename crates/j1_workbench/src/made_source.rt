// The source that `make` writes itself.
ghost use Rattle.std.specs.Prelude.{◌≡◌, ◌%◌, ◌++◌, ◌∷◌, [], codes, decimal, map, IfOk, OnOk};
ghost use Rattle.made_sources.specs.MadeSource.{joined, next_number, operation, definition, definitions, calls, made_source};

use itoa::Buffer;
use std::alloc::{AllocError, Global};

/// Appends parts one behind the other.
pub fn add_parts(text: &mut Vec<u8>, parts: &[&[u8]]) -> Result<(), AllocError>
    ensures { OnOk result (text.new.items ≡ text.old.items ++ joined (map (λ part. part.now) parts.now)) }
{
    for part in parts {
        text.extend_from_slice(part)?;
    }
    Ok(())
}

// The number that follows another.
fn next_number(number: u32) -> u32
    ensures { result ≡ next_number number }
{
    ((25173 * u64::from(number) + 13849) % 65536) as u32
}

// The operation of a number.
fn operation(number: u32) -> &'static [u8]
    ensures { result.now ≡ operation (number % 4) }
{
    match number % 4 {
        0 => b"+",
        1 => b"XOR",
        2 => b"-",
        _ => b"*",
    }
}

// Appends the definition at a place.
fn add_definition(text: &mut Vec<u8>, place: u32, number: u32) -> Result<(), AllocError>
    ensures { OnOk result (text.new.items ≡ text.old.items ++ definition place number) }
{
    let mut places = Buffer::new();
    let mut numbers = Buffer::new();
    let parts: [&[u8]; 7] = [
        b": W",
        places.format(place).as_bytes(),
        b" ",
        numbers.format(number).as_bytes(),
        b" ",
        operation(number),
        b" ;\n",
    ];
    add_parts(text, &parts)
}

// Appends so many definitions.
fn add_definitions(text: &mut Vec<u8>, seed: u32, count: u32) -> Result<(), AllocError>
    ensures { OnOk result (text.new.items ≡ text.old.items ++ definitions count 1 seed) }
{
    let mut number = seed;
    for done in 0..count {
        number = next_number(number);
        add_definition(text, done + 1, number)?;
    }
    Ok(())
}

// Appends the call of the definition at a place.
fn add_call(text: &mut Vec<u8>, place: u32) -> Result<(), AllocError>
    ensures { OnOk result (text.new.items ≡ text.old.items ++ joined (codes " W" ∷ decimal place ∷ [])) }
{
    let mut places = Buffer::new();
    add_parts(text, &[b" W", places.format(place).as_bytes()])
}

// Appends the calls of so many definitions.
fn add_calls(text: &mut Vec<u8>, count: u32) -> Result<(), AllocError>
    ensures { OnOk result (text.new.items ≡ text.old.items ++ calls count 1) }
{
    for done in 0..count {
        add_call(text, done + 1)?;
    }
    Ok(())
}

/// The source of a seed and a count. An error is want of memory.
#[tactic(auto, unfolding(made_sources::specs::MadeSource::made_source))]
pub fn made_source(alloc: Global, seed: u32, count: u32) -> Result<Vec<u8>, AllocError>
    ensures { IfOk result (λ text. text.items ≡ made_source seed count) }
{
    let mut text = Vec::new(alloc);
    add_definitions(&mut text, seed, count)?;
    text.extend_from_slice(b": MAIN 1")?;
    add_calls(&mut text, count)?;
    text.extend_from_slice(b" U. ;\n")?;
    Ok(text)
}
