// `kernel`: the image of the interactive Forth as a file.
use super::rows::{NEVER, Outside, call, holds, run_calls, run_faults};
use crate::Status;
use image_file::write_image;
use std::test::Fail;
use target_forth::kernel_image;

// `exec` of the file answers as `forth` does, but that the end of the input is told.
const CALLS: &str = r#"
kernel                      | |                            |                     | 1 bad words  | a = x | k
kernel k l                  | |                            |                     | 1 bad words  | a = x | k
kernel -k                   | |                            |                     | 1 bad words  | a = x | k
kernel k --steps 5          | |                            |                     | 1 bad words  | a = x | k
kernel k                    | | 1_.~                       |                     |              | a = x | a = x
kernel k ; exec k           | | : SQ DUP * ;~7 SQ .~XYZZY~ | _ok~49__ok~XYZZY_?~ | 7 input ended
kernel k ; exec k           | | 7_.~65_EMIT_1_0_/_66_EMIT~ | 7__ok~A             | 9 halted 10
kernel k ; exec k           | | 65_EMIT_0_@~8_.~           | A                   | 8 outside 0
kernel k ; exec k           | | 0_16388_!~8_.~             |                     |
kernel k ; exec k --steps 1 | |                            |                     | 6 steps used
kernel a ; exec a --steps 0 | |                            |                     | 6 steps used | a = x
"#;

#[test]
fn writes_a_forth(rt: HostRuntime) -> Result<(), Fail> {
    run_calls(rt.alloc(), CALLS)
}

// All bytes of the file are those of the image that `forth` runs.
#[test]
fn is_the_image_of_forth(rt: HostRuntime) -> Result<(), Fail> {
    let alloc = rt.alloc();
    let wanted = write_image(alloc, &kernel_image(alloc)?)?;
    let mut met = Outside::new(alloc, b"", NEVER)?;
    let is_done = call(alloc, &mut met, "kernel k")? == Status::Done;
    assert!(rt; is_done && holds(&met.files, "k", wanted.as_slice()));
    Ok(())
}

#[test]
fn tells_a_file_that_fails(rt: HostRuntime) -> Result<(), Fail> {
    run_faults(
        rt.alloc(),
        "files 1 | kernel k | | | | 11 write fault | | k",
    )
}
