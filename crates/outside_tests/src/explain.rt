// Tests of the messages of faults.

#[cfg(test)]
mod messages;
