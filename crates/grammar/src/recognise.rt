// What the grammar says of tokens before any tree is made, without trees: whether they are a source and where they go
// wrong, the depth of tokens counted first; where the longest expression ends; what completes an expression or a source.
//
// Contract: the least fault of a source; the end of the longest expression, or the least token with which none begins;
// what completes a beginning; tokens are those of one tree at most.

mod completing;
mod depth;
mod expressions;
mod fault;
mod sources;
mod spans;
mod stack;

pub use completing::{complete, complete_expr, has_one_file, has_one_tree};
pub use expressions::expression_end;
pub use fault::SyntaxFault;
pub use sources::check_source;
