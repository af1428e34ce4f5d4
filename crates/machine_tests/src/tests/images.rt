// Image files and listings as calls, where memory is ample.
use image_file::{ImageError, read_image, write_image};
use j1_assembler::{AsmError, assemble};
use j1_table::Image;
use std::alloc::{AllocError, Global};
use std::test::Fail;
use test_notation::{bytes_in, field};

// The cells, the data bytes and the data start of an image, or the offset that is refused.
fn image_told(alloc: Global, read: Result<Image, ImageError>) -> Result<String, AllocError> {
    match read {
        Ok(image) => format!(in alloc;
            "{:?} {:?} {}",
            image.cells(),
            image.bytes(),
            image.data_start()
        ),
        Err(error) => format!(in alloc; "{error:?}"),
    }
}

#[test]
fn reads_what_it_writes(rt: HostRuntime) -> Result<(), Fail> {
    let alloc = rt.alloc();
    let image = Image::split(alloc, &[0x700C], &[7, 8], 6000)?;
    let file = write_image(alloc, &image)?;
    let told = image_told(alloc, read_image(alloc, file.as_slice()))?;
    assert_eq!(rt; told.as_str(), "[28684] [7, 8] 6000");
    Ok(())
}

#[test]
fn refuses_three_bytes(rt: HostRuntime) -> Result<(), Fail> {
    let told = image_told(rt.alloc(), read_image(rt.alloc(), b"J1I"))?;
    assert_eq!(rt; told.as_str(), "Refused(3)");
    Ok(())
}

// A listing, and its line that is refused with the cause.
const LISTINGS: &str = r#"
J1_1~CODE~DATA~                       | 4 NoEnd
J1_2_2000~CODE                        | 1 Header
J1_1~dup                              | 2 Section
J1_1~CODE~alu_T_T->R_T->N             | 3 Form
J1_1~CODE~\_^80                       | 3 Form
J1_1~CODE~X:_dup~X:_drop~DATA~END     | 4 Label
J1_1~CODE~DATA~@2001_00               | 4 Address
J1_1~CODE~DATA~END~END                | 5 AfterEnd
"#;

fn listing_told(alloc: Global, text: &[u8]) -> Result<String, AllocError> {
    if text.len() > 1000 {
        return String::from_str(alloc, "too long");
    }
    match assemble(alloc, text) {
        Ok(_) => String::from_str(alloc, "assembled"),
        Err(AsmError::Refused(line, cause)) => format!(in alloc; "{line} {cause:?}"),
        Err(AsmError::OutOfMemory) => Err(AllocError),
    }
}

fn assemble_row(alloc: Global, line: &str) -> Result<(), Fail> {
    let mut rest = line;
    let text = bytes_in(alloc, field(&mut rest))?;
    if *listing_told(alloc, text.as_slice())?.as_str() == *field(&mut rest) {
        Ok(())
    } else {
        Ok(Err(line)?)
    }
}

#[test]
fn refuses_listings(rt: HostRuntime) -> Result<(), Fail> {
    for line in LISTINGS.trim_matches('\n').lines() {
        assemble_row(rt.alloc(), line)?;
    }
    Ok(())
}
