//! The image of a program with a library: its cells, the code that lays them out, and the law that the open machine does on it
//! what the source means.
//!
//! `Layout` in `specs/` gives the image, and `lay_out` makes it: the sizes of items give where each routine begins, and then the
//! cells of each item are added at the end of the code. `Built` says which programs have an image, `Numbering` and `Library` what
//! a library is and what its bodies have to mean, `Agreement` what the open machine and the source have to do with each other, and
//! `Chip` what follows on the chip; `Leaving`, `Returning` and `ReturningChip` say the same of images with `GO`. The laws are functions that only call the laws that they stand on.
#![tactic(auto)]

mod calls;
mod cells;
mod emission;
mod laws;
mod layout;
mod parts;
mod places;
mod reach;
mod sizes;
mod tokens;
mod words;

pub use cells::tail_jump;
pub use laws::{
    chips_agree, chips_return, code_is_light, images_agree, images_are_led_out, images_return,
    items_are_light, last_calls_are_jumps,
};
pub use layout::lay_out;
