//! Drivers: the tokens and lines of a driver file, what its names and strings say, what each line does to the driver, and the
//! driver of a file with its imports in place.
//!
//! Contract: the driver of the files, or the first thing that is in its way.
#![tactic(auto)]

pub mod driver_files;
pub mod driver_items;
pub mod driver_parts;
pub mod driver_tokens;
