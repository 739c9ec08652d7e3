// Tests of the binding functions: tables, random trees against a plain walk, and trees with more nodes than a number
// counts.

#[cfg(test)]
mod calls;
#[cfg(test)]
mod random;
#[cfg(test)]
mod tables;
