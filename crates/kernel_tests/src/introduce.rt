// Tests of the transformations that introduce and remove, and of the bounds on the tasks of a stage.

#[cfg(test)]
mod introducing;
#[cfg(test)]
mod limits;
#[cfg(test)]
mod removing;
#[cfg(test)]
mod small;
