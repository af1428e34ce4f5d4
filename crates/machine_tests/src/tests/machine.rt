// Code on the machine, with answers from its own tables.
use j1_simulator::{DriveError, End, Event, Finish, Machine, drive};
use j1_table::Image;
use outside_io::{MemSink, MemSource};
use std::alloc::{AllocError, Global};
use std::test::Fail;
use test_notation::{bytes_in, cells_in, field, number};

/// For how many instructions code is driven, its input, its finish, and the numbers of the questions and of the writes that fail.
#[derive(Clone, Copy)]
pub(super) struct Drive<'a> {
    pub steps: u16,
    pub input: &'a str,
    pub finish: &'a str,
    pub questions: [u32; 1],
    pub writes: [u32; 1],
}

fn drive_code(
    alloc: Global,
    code: &[u16],
    way: &Drive,
    out: &mut MemSink,
) -> Result<Result<Finish, DriveError>, Fail> {
    if code.len() > 4096 {
        Err(AllocError)?;
    }
    let image = Image::new(alloc, code, &[10, 0, 96, 32, 128, 32])?;
    let mut machine = Machine::new(alloc, &image)?;
    let input = bytes_in(alloc, way.input)?;
    let mut console = MemSource::new(alloc, input.as_slice(), &way.questions)?;
    Ok(drive(&mut machine, u64::from(way.steps), &mut console, out))
}

fn end_told(alloc: Global, end: End) -> Result<String, AllocError> {
    match end {
        End::InputEnded => String::from_str(alloc, "input ended"),
        End::Outside(address) => format!(in alloc; "outside {address}"),
        End::Halted(status) => format!(in alloc; "halted {status}"),
    }
}

fn finish_told(alloc: Global, drove: Result<Finish, DriveError>) -> Result<String, AllocError> {
    match drove {
        Ok(Finish::StepsUsed) => String::from_str(alloc, "steps used"),
        Ok(Finish::Ended(end)) => end_told(alloc, end),
        Err(DriveError::Read) => String::from_str(alloc, "read fault"),
        Err(DriveError::Write) => String::from_str(alloc, "write fault"),
    }
}

/// Whether code that is driven prints this and has its finish.
pub(super) fn drives(
    alloc: Global,
    code: &[u16],
    way: &Drive,
    printed: &[u8],
) -> Result<bool, Fail> {
    let mut out = MemSink::new(alloc, 1000, &way.writes)?;
    let drove = drive_code(alloc, code, way, &mut out)?;
    let told = finish_told(alloc, drove)?;
    Ok(*out.held() == *printed && *told.as_str() == *way.finish)
}

// The cells of an image, the instructions that it may make, its input, what it prints, its finish, and the numbers of the questions and of
// the writes that fail. What is printed is written out before the question for a byte, and one byte is asked for: three questions and three
// writes of an echo fail in turn, and a call behind the last does not come: where nothing waits, nothing is written.
const IMAGES: &str = r#"
8048 C000 6023 6103                               | 7   |    | H     | steps used
8048 C000 6023 6103                               | 8   |    | HH    | steps used
8048 C000 6023 6103                               | 0   |    |       | steps used
8000 6C00                                         | 9   |    |       | outside 0
8000 6C00                                         | 1   |    |       | steps used
8041 C003 6023                                    | 9   |    |       | outside 16386
C002 6C00 C000 6023 6103                          | 99  | xy | xy    | input ended
8003 C004 6023                                    | 9   |    |       | halted 3
A000 6C00 C000 6023 8000 C004 6023                | 99  |    | ~     | halted 0
8041 C000 6023 6103 C002 6C00 8000 C004 6023      | 999 | xy | A     | read fault    | 1
8041 C000 6023 6103 C002 6C00 8000 C004 6023      | 999 | xy | A     | halted 0      | 2
8041 C000 6023 6103 C002 6C00 C000 6023 6103 0000 | 999 | xy | A     | read fault    | 1
8041 C000 6023 6103 C002 6C00 C000 6023 6103 0000 | 999 | xy | AxA   | read fault    | 2
8041 C000 6023 6103 C002 6C00 C000 6023 6103 0000 | 999 | xy | AxAyA | read fault    | 3
8041 C000 6023 6103 C002 6C00 C000 6023 6103 0000 | 999 | xy | AxAyA | input ended   | 4
8041 C000 6023 6103 C002 6C00 C000 6023 6103 0000 | 999 | xy |       | write fault   |   | 1
8041 C000 6023 6103 C002 6C00 C000 6023 6103 0000 | 999 | xy | A     | write fault   |   | 2
8041 C000 6023 6103 C002 6C00 C000 6023 6103 0000 | 999 | xy | AxA   | write fault   |   | 3
8041 C000 6023 6103 C002 6C00 C000 6023 6103 0000 | 999 | xy | AxAyA | input ended   |   | 4
8041 C000 6023 6103 C002 6C00 C000 6023 6103 0000 | 999 | xy | AxAyA | input ended   |   | 5
"#;

// The number of a field, or 0.
fn number_in(field: &str) -> u16 {
    number(field, 10).unwrap_or(0)
}

fn drive_row(alloc: Global, line: &str) -> Result<(), Fail> {
    let mut rest = line;
    let code = cells_in(alloc, field(&mut rest), 16)?;
    let steps = number_in(field(&mut rest));
    let input = field(&mut rest);
    let printed = bytes_in(alloc, field(&mut rest))?;
    let way = Drive {
        steps,
        input,
        finish: field(&mut rest),
        questions: [u32::from(number_in(field(&mut rest)))],
        writes: [u32::from(number_in(field(&mut rest)))],
    };
    if drives(alloc, code.as_slice(), &way, printed.as_slice())? {
        Ok(())
    } else {
        Ok(Err(line)?)
    }
}

#[test]
fn drives_images(rt: HostRuntime) -> Result<(), Fail> {
    for line in IMAGES.trim_matches('\n').lines() {
        drive_row(rt.alloc(), line)?;
    }
    Ok(())
}

// `A` without end, where the second write fails: the first was a full buffer.
#[test]
fn writes_a_full_buffer(rt: HostRuntime) -> Result<(), Fail> {
    let mut out = MemSink::new(rt.alloc(), 1000, &[2])?;
    let way = Drive {
        steps: 5000,
        input: "",
        finish: "",
        questions: [0],
        writes: [0],
    };
    let code = [0x8041, 0xC000, 0x6023, 0x6103];
    let drove = drive_code(rt.alloc(), &code, &way, &mut out)?;
    assert_eq!(rt; drove, Err(DriveError::Write));
    assert_eq!(rt; out.held().len(), 512);
    Ok(())
}

#[test]
fn counts_depths(rt: HostRuntime) -> Result<(), Fail> {
    let image = Image::new(rt.alloc(), &[0x700C], &[])?;
    let mut machine = Machine::new(rt.alloc(), &image)?;
    for _ in 0..3 {
        assert_eq!(rt; machine.step(), Event::Went);
    }
    assert_eq!(rt; machine.depths(), (0i64, -3i64));
    Ok(())
}
