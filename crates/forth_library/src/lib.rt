//! The library that is linked into every image: the definitions of both of its texts, in their order.
//!
//! Its bodies mean their words, so the laws of `code_layout` hold of each image that is laid out with them.
#![tactic(auto)]

mod laws;
mod linking;

pub use laws::{
    library_is_certified, library_means, library_text_is_read, linked_images_agree,
    sources_are_built,
};
pub use linking::{library_program, linked_image};
