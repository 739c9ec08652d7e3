// Tests of what names mean in scopes.

#[cfg(test)]
mod tables;
