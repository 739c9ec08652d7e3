// Images of the formulas of a draft's task under a rule: the task with them, and steps that cite the images of its propositions.
//
// Contract: exactly the task with the images; a step that refutes the negation of a proposition's image.

mod changing;
mod citing;

pub use changing::changed_tasks;
pub use citing::cite_image;
