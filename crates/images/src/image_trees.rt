// Images of trees over whatever grows by trees, generic in a rule for nodes, with a memory of what was made.
//
// Contract: exactly the image of a typed tree under the rule.

mod imaging;

pub use imaging::{NodeRule, image_tree};
