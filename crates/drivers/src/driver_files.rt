// A driver file with its imports in place: which files are fetched, in which order, each whole file once.
//
// Contract: the driver of the files, or the first thing that is in its way.

mod fetching;
mod names;
mod reading;

pub use crate::driver_items::{Piece, Printer, Trans};
pub use crate::driver_parts::{Driver, DriverFault};
pub use reading::read_driver;
