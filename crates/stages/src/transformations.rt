// The transformations, as one type, with the words that name them in a driver.
//
// Contract: all laws of a transformation, for each of them; which of them a word names.

mod transformation;
mod words;

pub use tr_remove::Remove;
pub use transformation::Transformation;
pub use words::transformation_of;
