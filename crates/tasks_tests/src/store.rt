// Tests of the store of trees: numbers, what is asked of a tree, and the plain list as a reference.

#[cfg(test)]
mod random;
#[cfg(test)]
mod tables;
