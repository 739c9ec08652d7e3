// The kinds of the tokens of files.
//
// Contract: the tokens of a file are those that its tree writes.

mod expressions;
mod files;
mod parts;
mod writing;

pub use files::unparse;
