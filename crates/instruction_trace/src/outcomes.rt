// The line of the byte that an instruction printed or took.
ghost use Rattle.std.specs.Prelude.{◌≡◌, OnErr};
ghost use Rattle.outside_io.specs.Bytes.{WritesAll};
ghost use Rattle.outside_io.specs.Causes.{HasCause};
ghost use Rattle.instruction_trace.specs.TraceText.{print_line, take_line};
ghost use Rattle.instruction_trace.specs.Turn.{told_text};

use decompiler::digit;
use j1_simulator::Event;
use outside_io::{Failed, Sink};

// Writes the line of a byte that was printed.
fn write_print<O: Sink>(byte: u8, out: &mut O) -> Result<(), Failed>
    ensures bytes { WritesAll (O.held out.old) (O.held out.new) result (print_line byte) }
    ensures cause { HasCause (O.faults out.old) (O.faults out.new) result }
{
    out.write(&[
        b'p',
        b'r',
        b'i',
        b'n',
        b't',
        b' ',
        digit(byte / 16),
        digit(byte % 16),
        b'\n',
    ])
}

// Writes the line of a byte that was taken.
fn write_take<O: Sink>(byte: u8, out: &mut O) -> Result<(), Failed>
    ensures bytes { WritesAll (O.held out.old) (O.held out.new) result (take_line byte) }
    ensures cause { HasCause (O.faults out.old) (O.faults out.new) result }
{
    out.write(&[
        b't',
        b'a',
        b'k',
        b'e',
        b' ',
        digit(byte / 16),
        digit(byte % 16),
        b'\n',
    ])
}

/// Writes the line of the byte that an instruction printed or took, where it did.
pub fn write_outcome<O: Sink>(
    event: Event,
    taken: Option<Option<u8>>,
    out: &mut O,
) -> Result<(), Failed>
    ensures bytes { WritesAll (O.held out.old) (O.held out.new) result (told_text event taken) }
    ensures cause { HasCause (O.faults out.old) (O.faults out.new) result }
{
    match (taken, event) {
        (Some(Some(byte)), _) => write_take(byte, out),
        (None, Event::Printed(byte)) => write_print(byte, out),
        _ => Ok(()),
    }
}
