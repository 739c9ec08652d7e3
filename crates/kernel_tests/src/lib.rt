//! Tests of the checker: random steps against a plain check, and steps that no step file can write.
#![tactic(auto)]

#[cfg(test)]
mod introduce;
#[cfg(test)]
mod nodes;
#[cfg(test)]
mod random;
#[cfg(test)]
mod small;
#[cfg(test)]
mod steps;
#[cfg(test)]
mod tree_writing;
