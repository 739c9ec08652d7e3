// Tests of names by symbols and types, and of the lines of types that are written with them.

#[cfg(test)]
mod lines;
#[cfg(test)]
mod names;
