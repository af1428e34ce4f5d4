//! Runs of the chip that answer sessions: what that is, and laws with no code by which it follows from less.
#![tactic(auto)]

mod laws;

pub use laws::{
    calls_come_back_in_turn, few_steps_are_enough, followers_answer, runs_are_spliced,
    texts_answer, texts_are_led_out, texts_go_along, texts_go_on_in_parts,
};
