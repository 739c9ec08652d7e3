// The tokens of a driver file, and the lines that they make, found by a finite automaton without trees; what strings say.
//
// Contract: the only lines of a text, or the first byte that no driver file allows there.

mod bytes;
mod fault;
mod file;
mod gaps;
mod lexer;
mod machine;
mod strings;
mod terminal;
mod token;
mod words;

pub use fault::DriverSyntaxFault;
pub use file::{DriverLine, DriverText, read_lines};
pub use strings::string_value;
pub use terminal::{DriverTerminal, DriverWord, Heading, NameKind};
pub use token::DriverToken;
