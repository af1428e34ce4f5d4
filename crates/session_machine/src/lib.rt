//! The session machine: what an interactive Forth does with lines of numbers, words and definitions, as a definition, and laws with no
//! code.
#![tactic(auto)]

mod laws;

pub use laws::{
    session_prices_add, sessions_compose, sessions_grow, sessions_take_few_steps,
    words_run_as_sources,
};
