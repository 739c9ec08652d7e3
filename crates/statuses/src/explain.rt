// The words and the place of a refusal: the table of codes, lines and columns, the message, the words of its program.
//
// Contract: exactly the message of a fault in a text.

mod message;
mod places;
mod table;
mod words;

pub use message::explain;
pub use words::{ExplainFault, explain_words};
