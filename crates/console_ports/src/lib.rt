//! The memory map of the machine: data space, the ports of its console, and the fence.
#![tactic(auto)]

mod ports;
mod table;

pub use ports::{Access, Fence};
pub use table::access;
