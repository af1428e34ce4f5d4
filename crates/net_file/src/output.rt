// What is written of a run.
ghost use Rattle.std.specs.Prelude.{◌≡◌, ◌≤◌, ◌++◌, length, OnOk, IfOk};
ghost use Rattle.core_array.specs.ArrayState.{network_of};
ghost use Rattle.net_file.specs.Output.{core_line, core_lines};

use core_array::Array;
use itoa::Buffer;
use std::alloc::{AllocError, Global};

// Appends the line of a core.
fn add_line(text: &mut Vec<u8>, core: u8, printed: &[u8]) -> Result<(), AllocError>
    ensures { OnOk result (text.new.items ≡ text.old.items ++ core_line core printed.now) }
{
    let mut digits = Buffer::new();
    text.extend_from_slice(b"core ")?;
    text.extend_from_slice(digits.format(core).as_bytes())?;
    text.extend_from_slice(b": ")?;
    text.extend_from_slice(printed)?;
    text.extend_from_slice(b"\n")?;
    Ok(())
}

/// A line for each of the first so many cores of an array: `core `, its number, `: `, what it printed in all calls of `run`, and a line
/// feed.
pub fn core_lines(alloc: Global, array: &Array, cores: u8) -> Result<Vec<u8>, AllocError>
    requires { cores ≤ length array.now.cores }
    ensures { IfOk result (λ text. text.items ≡ core_lines cores 0 (network_of array.now).printed) }
{
    let mut text = Vec::new(alloc);
    for core in 0..cores {
        add_line(&mut text, core, array.printed(core))?;
    }
    Ok(text)
}
