// The line that a status leaves in the notes.
ghost use Rattle.std.specs.Prelude.{◌≡◌, ◌∷◌, [], IsOk, map, string_bytes};
ghost use Rattle.outside_io.specs.Causes.{HasCause};
ghost use Rattle.outside_io.specs.Bytes.{WritesAll};
ghost use Rattle.j1_workbench.specs.Surroundings.{stream};
ghost use Rattle.j1_workbench.specs.Notes.{file_named, calls_net, noted_file, ended, line, cause_named, uncertified, unbounded, named, note_of};

use crate::answer::{Subject, named};
use crate::status::Status;
use control_flow::SourceCause;
use depth_certifier::CertCause;
use itoa::Buffer;
use outside_io::{Failed, Sink};
use step_certifier::BoundCause;

/// Writes parts one behind the other, and a line feed.
pub fn write_parts<N: Sink>(notes: &mut N, parts: &[&[u8]]) -> Result<(), Failed>
    ensures bytes { WritesAll (N.held notes.old) (N.held notes.new) result (ended (map (λ part. part.now) parts.now)) }
    ensures cause { HasCause (N.faults notes.old) (N.faults notes.new) result }
{
    match parts {
        [] => notes.write(b"\n"),
        [part, rest @ ..] => {
            notes.write(part)?;
            write_parts(notes, rest)
        }
    }
}

fn write_line<N: Sink>(notes: &mut N, parts: &[&[u8]]) -> Result<(), Failed>
    ensures bytes { WritesAll (N.held notes.old) (N.held notes.new) result (line (map (λ part. part.now) parts.now)) }
    ensures cause { HasCause (N.faults notes.old) (N.faults notes.new) result }
{
    notes.write(b"j1: ")?;
    write_parts(notes, parts)
}

// The file that is read: the word behind the command.
fn file_named(words: &[String]) -> &str
    ensures { result.now ≡ file_named (map string_bytes words.now) }
{
    match words {
        [_, name, ..] => name.as_str(),
        _ => "",
    }
}

// Whether the words call `net`, which reads more files than the one that is named.
fn calls_net(words: &[String]) -> bool
    ensures { result ≡ calls_net (map string_bytes words.now) }
{
    match words {
        [] => false,
        [command, ..] => command.as_str() == "net",
    }
}

// The file that a note names: with `net` the one that the answer names, if it names one.
fn noted_file<'a>(words: &'a [String], name: &'a Option<Subject>) -> &'a str
    ensures { result.now ≡ noted_file (map string_bytes words.now) (named name.now) }
{
    let called = named(name);
    if calls_net(words) && !called.is_empty() {
        called
    } else {
        file_named(words)
    }
}

fn cause_named(cause: SourceCause) -> &'static [u8]
    ensures { result.now ≡ cause_named cause }
{
    match cause {
        SourceCause::NotText => b"NotText",
        SourceCause::NameTooLong => b"NameTooLong",
        SourceCause::OpenComment => b"OpenComment",
        SourceCause::OpenString => b"OpenString",
        SourceCause::NeedsName => b"NeedsName",
        SourceCause::UnknownWord => b"UnknownWord",
        SourceCause::NumberRange => b"NumberRange",
        SourceCause::NotInDefinition => b"NotInDefinition",
        SourceCause::OnlyInDefinition => b"OnlyInDefinition",
        SourceCause::BadNest => b"BadNest",
        SourceCause::TooDeep => b"TooDeep",
        SourceCause::HostUnderflow => b"HostUnderflow",
        SourceCause::BadSplit => b"BadSplit",
        SourceCause::HostOverflow => b"HostOverflow",
        SourceCause::TooManyWords => b"TooManyWords",
        SourceCause::DataFull => b"DataFull",
        SourceCause::CodeFull => b"CodeFull",
        SourceCause::OpenDefinition => b"OpenDefinition",
        SourceCause::NoMain => b"NoMain",
    }
}

// The line of a definition without a certificate.
fn write_uncertified<N: Sink>(
    notes: &mut N,
    name: &Option<Subject>,
    cause: CertCause,
) -> Result<(), Failed>
    ensures bytes { WritesAll (N.held notes.old) (N.held notes.new) result (line (named name.now ∷ uncertified cause ∷ [])) }
    ensures cause { HasCause (N.faults notes.old) (N.faults notes.new) result }
{
    match cause {
        CertCause::Data => {
            write_line(notes, &[named(name).as_bytes(), b": not certified: Data"])
        }
        CertCause::Return => {
            write_line(notes, &[named(name).as_bytes(), b": not certified: Return"])
        }
        CertCause::Shape => {
            write_line(notes, &[named(name).as_bytes(), b": not certified: Shape"])
        }
    }
}

// The line of a definition without a step bound.
fn write_unbounded<N: Sink>(
    notes: &mut N,
    name: &Option<Subject>,
    cause: BoundCause,
) -> Result<(), Failed>
    ensures bytes { WritesAll (N.held notes.old) (N.held notes.new) result (line (named name.now ∷ unbounded cause ∷ [])) }
    ensures cause { HasCause (N.faults notes.old) (N.faults notes.new) result }
{
    match cause {
        BoundCause::BeginLoop => {
            write_line(notes, &[named(name).as_bytes(), b": no bound: BeginLoop"])
        }
        BoundCause::OpenBounds => {
            write_line(notes, &[named(name).as_bytes(), b": no bound: OpenBounds"])
        }
        BoundCause::Recursion => {
            write_line(notes, &[named(name).as_bytes(), b": no bound: Recursion"])
        }
        BoundCause::Execute => {
            write_line(notes, &[named(name).as_bytes(), b": no bound: Execute"])
        }
        BoundCause::TooLarge => {
            write_line(notes, &[named(name).as_bytes(), b": no bound: TooLarge"])
        }
    }
}

/// Writes the line of an answer, which may name a definition, in pieces and without memory. Done has none.
pub fn write_note<N: Sink>(
    notes: &mut N,
    words: &[String],
    status: Status,
    name: &Option<Subject>,
) -> Result<(), Failed>
    ensures bytes { WritesAll (N.held notes.old) (N.held notes.new) result (note_of (map string_bytes words.now) status (named name.now)) }
    ensures cause { HasCause (N.faults notes.old) (N.faults notes.new) result }
    ensures quiet { status ≡ Status.Done → IsOk result × (stream (N.held notes.new) (N.calls notes.new) (N.faults notes.new) ≡ stream (N.held notes.old) (N.calls notes.old) (N.faults notes.old)) }
{
    let mut digits = Buffer::new();
    match status {
        Status::Done => Ok(()),
        Status::BadWords => write_line(notes, &[b"bad words"]),
        Status::Missing => {
            write_line(notes, &[noted_file(words, name).as_bytes(), b": missing"])
        }
        Status::SourceRefused(refusal) => {
            let number = digits.format(refusal.token).as_bytes();
            write_line(
                notes,
                &[b"source token ", number, b": ", cause_named(refusal.cause)],
            )
        }
        Status::NotCertified(_, cause) => write_uncertified(notes, name, cause),
        Status::BadImage(offset) => {
            write_line(notes, &[b"image byte ", digits.format(offset).as_bytes()])
        }
        Status::BadListing(line) => {
            write_line(notes, &[b"listing line ", digits.format(line).as_bytes()])
        }
        Status::StepsUsed => write_line(notes, &[b"steps used"]),
        Status::InputEnded => write_line(notes, &[b"input ended"]),
        Status::Outside(address) => {
            write_line(notes, &[b"outside ", digits.format(address).as_bytes()])
        }
        Status::Halted(number) => {
            write_line(notes, &[b"halted ", digits.format(number).as_bytes()])
        }
        Status::ReadFault => write_line(notes, &[b"read fault"]),
        Status::WriteFault => write_line(notes, &[b"write fault"]),
        Status::OutOfMemory => write_line(notes, &[b"out of memory"]),
        Status::TooLarge => {
            write_line(notes, &[noted_file(words, name).as_bytes(), b": too large"])
        }
        Status::Underflow => write_line(notes, &[b"underflow"]),
        Status::Unbalanced => write_line(notes, &[b"unbalanced"]),
        Status::BoundRefused(_, cause) => write_unbounded(notes, name, cause),
        Status::BadNet(line) => {
            write_line(notes, &[b"net line ", digits.format(line).as_bytes()])
        }
    }
}
