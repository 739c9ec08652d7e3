// The linear leaf over the integers, told in the time that the different parts of its terms take: what is told of a term is remembered by
// its number.
//
// Contract: exactly which weighted sums can't hold, refused for want of memory alone.

mod known;
mod pending;
mod summands;
mod told;
mod uses;

pub use told::is_closed_by;
