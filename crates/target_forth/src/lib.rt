//! The interactive Forth that runs on the chip: its kernel in Forth, the image of the kernel, and sessions with it.
#![tactic(auto)]

mod first_state;
mod image;
mod laws;
mod machine_code;
mod places;
mod sessions;
mod text;

pub use first_state::{first_line_begins, kernel_begins};
pub use image::kernel_image;
pub use laws::{kernel_agrees, kernel_is_certified, kernel_is_read, kernel_replies};
pub use machine_code::kernel_has_machine_code;
pub use places::{KernelPlaces, kernel_places};
pub use sessions::{SessionError, session};
pub use text::{KERNEL_TEXT, kernel_text};
