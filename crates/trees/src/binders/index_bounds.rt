// Open terms put into open trees: whether the indices of bound variables fit, told by the least numbers above them.
//
// Contract: exactly the tree with the terms; only want of memory refuses.

mod bounding;
mod putting;

pub use putting::put_terms;
