// Folders: that of the system, in the empty folder that a test runs in, and one in memory.
use outside_io::{FileFault, Folder, MemFolder, PutFault, StdFolder};
use std::alloc::{AllocError, Global};
use std::test::Fail;
use test_notation::{bytes_in, field};

// A read, the name, the most bytes, and what it gives; or a write, the name, the bytes, and nothing. A fault is told by its name. `.` is the
// one name that each folder has for itself.
const SYSTEM: &str = r#"
read  | none      | 10            | Absent
read  | none/none | 10            | Absent
read  | .         | 10            | Failed
write | .         | x             | Failed
write | none/none | x             | Failed
write | a.tmp     | one line~     |
read  | a.tmp     | 100           | one line~
write | b.tmp     | ^00^FF^0D~^1A |
read  | b.tmp     | 100           | ^00^FF^0D~^1A
write | a.tmp     | one           |
read  | a.tmp     | 100           | one
write | b.tmp     |               |
read  | b.tmp     | 100           |
read  | nnnnnnnnnnnnnnnnnnnnnnnnnnnnnnnnnnnnnnnnnnnnnnnnnnnnnnnnnnnnnnnnnnnnnnnnnnnnnnnnnnnnnnnnnnnnnnnnnnnnnnnnnnnnnnnnnnnnnnnnnnnnnnnnnnnnnnnnnnnnnnnnnnnnnnnnnnnnnnnnnnnnnnnnnnnnnnnnnnnnnnnnnnnnnnnnnnnnnnnnnnnnnnnnnnnnnnnnnnnnnnnnnnnnnnnnnnnnnnnnnnnnnnnnnnnnnnn | 10 | Absent
"#;

// The fourth call fails.
const MEMORY: &str = r#"
write | b | two   |
write | a | three |
read  | a | 4     | thre
write | c | four  | Failed
read  | a | 100   | three
read  | b | 100   | two
read  | c | 100   | Absent
read  | d | 100   | Absent
"#;

fn fault_told(alloc: Global, fault: FileFault) -> Result<Vec<u8>, AllocError> {
    let told = format!(in alloc; "{fault:?}")?;
    told.as_bytes().to_vec(alloc)
}

fn read_told<F: Folder>(
    alloc: Global,
    files: &mut F,
    name: &str,
    most: &str,
) -> Result<Vec<u8>, AllocError> {
    match files.read(alloc, name, most.parse::<usize>().unwrap_or(0)) {
        Ok(bytes) => Ok(bytes),
        Err(fault) => fault_told(alloc, fault),
    }
}

fn write_told<F: Folder>(
    alloc: Global,
    files: &mut F,
    name: &str,
    text: &str,
) -> Result<Vec<u8>, Fail> {
    let bytes = bytes_in(alloc, text)?;
    match files.write(alloc, name, bytes.as_slice()) {
        Ok(()) => Ok(Vec::new(alloc)),
        Err(PutFault::Failed) => bytes_in(alloc, "Failed"),
        Err(PutFault::OutOfMemory) => bytes_in(alloc, "OutOfMemory"),
    }
}

// Does the read or the write of a line, and tells one that gives anything else.
fn do_line<F: Folder>(alloc: Global, files: &mut F, line: &str) -> Result<(), Fail> {
    let mut rest = line;
    let is_read = *field(&mut rest) == *"read";
    let name = field(&mut rest);
    let told = if is_read {
        read_told(alloc, files, name, field(&mut rest))?
    } else {
        write_told(alloc, files, name, field(&mut rest))?
    };
    if *told.as_slice() == *bytes_in(alloc, field(&mut rest))?.as_slice() {
        Ok(())
    } else {
        Ok(Err(line)?)
    }
}

fn do_lines<F: Folder>(alloc: Global, files: &mut F, table: &str) -> Result<(), Fail> {
    for line in table.trim_matches('\n').lines() {
        do_line(alloc, files, line)?;
    }
    Ok(())
}

#[test]
fn reads_and_writes_in_the_system(rt: HostRuntime) -> Result<(), Fail> {
    do_lines(rt.alloc(), &mut StdFolder::new(&rt), SYSTEM)
}

#[test]
fn keeps_files(rt: HostRuntime) -> Result<(), Fail> {
    let alloc = rt.alloc();
    let mut files = MemFolder::new(alloc, &[4])?;
    files.put("a", b"one")?;
    do_lines(alloc, &mut files, MEMORY)
}

// The bytes of a long file, none of which is the one before it.
fn many_bytes(alloc: Global, count: usize) -> Result<Vec<u8>, AllocError> {
    let mut bytes = Vec::with_capacity(alloc, count)?;
    for i in 0..count {
        bytes.push((i % 251) as u8)?;
    }
    Ok(bytes)
}

// Whether a read of at most so many bytes gives the first of these, and no fewer than there are.
fn reads_front<F: Folder>(alloc: Global, files: &mut F, bytes: &[u8], most: usize) -> bool {
    match files.read(alloc, "long.tmp", most) {
        Ok(front) => front.len() == most.min(bytes.len()) && bytes.starts_with(front.as_slice()),
        Err(_) => false,
    }
}

// Whether a folder keeps these bytes, and reads from them as many as it may.
fn reads_fronts<F: Folder>(alloc: Global, files: &mut F, bytes: &[u8]) -> bool {
    let mut are_fronts = files.write(alloc, "long.tmp", bytes).is_ok();
    for most in [0, 1, 4096, 39_999, 40_000, 40_001, 65_537] {
        are_fronts &= reads_front(alloc, files, bytes, most);
    }
    are_fronts
}

#[test]
fn reads_up_to_a_limit(rt: HostRuntime) -> Result<(), Fail> {
    let bytes = many_bytes(rt.alloc(), 40_000)?;
    let are_fronts = reads_fronts(rt.alloc(), &mut StdFolder::new(&rt), bytes.as_slice());
    assert!(rt; are_fronts);
    Ok(())
}
