//! Tests of the collections, the library and the sinks.
#![tactic(auto)]

#[cfg(test)]
mod explain;
#[cfg(test)]
mod names;
#[cfg(test)]
mod tables;
