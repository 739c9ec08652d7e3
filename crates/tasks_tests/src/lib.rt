//! Tests of tasks: what is well typed over one, row by row, each with a twin that is wrong in one place; what a task
//! declares, with an index and without; its start, its nodes and its facts.
#![tactic(auto)]

#[cfg(test)]
mod binders;
#[cfg(test)]
mod linear;
#[cfg(test)]
mod nodes;
#[cfg(test)]
mod rows;
#[cfg(test)]
mod small;
#[cfg(test)]
mod store;
