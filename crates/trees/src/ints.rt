// The symbols of the integers.
// A signature tells them, and arithmetic on terms reads them.

/// The entries of the functions and predicates of the theory `int.Int` in a signature.
#[derive(Clone, Copy)]
pub struct Ints {
    pub neg: usize,
    pub add: usize,
    pub sub: usize,
    pub mul: usize,
    pub lt: usize,
    pub le: usize,
    pub gt: usize,
    pub ge: usize,
}
