// The image of the kernel.
ghost use Rattle.std.specs.Prelude.{◌≡◌, IfOk};
ghost use Rattle.target_forth.specs.Kernel.{kernel};

use crate::laws::kernel_is_read;
use crate::text::KERNEL_TEXT;
use control_flow::{SourceError, read_kernel};
use forth_library::linked_image;
use j1_table::Image;
use std::alloc::{AllocError, Global};

/// The image of the kernel: code cells, and the bytes of its data space. An error is want of memory.
pub fn kernel_image(alloc: Global) -> Result<Image, AllocError>
    ensures { IfOk result (λ image. image ≡ kernel) }
{
    kernel_is_read();
    match read_kernel(alloc, KERNEL_TEXT.as_bytes()) {
        Ok(program) => linked_image(alloc, &program),
        Err(SourceError::OutOfMemory) => Err(AllocError),
        Err(_) => unreachable!(),
    }
}
