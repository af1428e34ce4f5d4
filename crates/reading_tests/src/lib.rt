//! How texts are read, told by tables: tokens, numbers, words, dictionaries, whole sources and sources in pieces, the texts of the library,
//! and certificates that are given.
#![tactic(auto)]

#[cfg(test)]
mod tests;
