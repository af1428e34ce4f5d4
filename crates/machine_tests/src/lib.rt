//! What code does on the machine and on arrays of it, and what its files and folders hold, told by tables.
#![tactic(auto)]

#[cfg(test)]
mod tests;
