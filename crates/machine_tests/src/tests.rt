// Worked calls of the crates below, with answers from outside.
mod arrays;
mod folders;
mod images;
mod machine;
mod phrases;
