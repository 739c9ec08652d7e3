// What has been read of a driver so far, and what each line but an import does to it; the driver and its faults.
//
// Contract: the parts that an item makes, or what is wrong with it.

mod context;
mod driver;
mod fault;
mod parts;
mod steps;

pub use context::{DriverContext, FileText};
pub use driver::Driver;
pub use fault::DriverFault;
pub use parts::{DriverParts, driver_of, no_parts};
pub use steps::take_line;
