//! Net files: the cores of an array, the links between them, and how their schedule goes.
//!
//! | lines with fields, in this order | |
//! |---|---|
//! | `NET 1` | |
//! | `core NAME` | 2 to 16 lines: the source file of each core |
//! | `link A B` | up to 16 lines: core A sends cells to core B; the numbers of two different cores, from 0 |
//! | `turns R Q` | R rounds, of Q entries of core 0, then Q of core 1, and so on: at most 4,000,000 entries in all |
//!
//! Each line feed ends a line. Fields are split by spaces, tabs and carriage returns. A field `\` and what follows it in the line are
//! a comment. Lines without fields are skipped. Numbers have 1 to 10 decimal digits; R is 1 to 1,000,000 and Q 1 to 1,000.
#![tactic(auto)]

mod error;
mod laws;
mod nets;
mod numbers;
mod output;
mod reading;
mod rows;
mod run;
mod schedules;

pub use error::NetError;
pub use laws::{refuses_first_bad_line, tells_net};
pub use nets::Net;
pub use numbers::number_in;
pub use output::core_lines;
pub use reading::read_net;
pub use run::run_net;
