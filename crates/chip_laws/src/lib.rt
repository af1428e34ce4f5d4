//! On the chip a built program with a certificate agrees with its source, one with `GO` also behind each `GO` that comes back.
#![tactic(auto)]

mod laws;

pub use laws::{
    certified_chips_agree, certified_chips_keep_tight, certified_chips_return,
    certified_images_return,
};
