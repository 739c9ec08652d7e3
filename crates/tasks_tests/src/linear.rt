// Tests of the linear leaf: sequents with their multipliers, row by row.

#[cfg(test)]
mod rows;
