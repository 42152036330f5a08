#![tactic(auto)]
// Block files: a book in blocks of 512 bytes, read where it lies.
mod block;
pub mod book;
mod file;
