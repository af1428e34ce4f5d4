// Worked calls of the crates below, with answers from outside.
mod certificates;
mod dictionaries;
mod libraries;
mod numbers;
mod pieces;
mod reading;
mod source_texts;
mod words;
