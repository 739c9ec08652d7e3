// What the names and strings of a driver say: which transformations and printers words name, the pieces of templates, what
// names of symbols and of theories stand for.
//
// Contract: exactly these values.

mod items;
mod kinds;
mod names;
mod symbols;
mod templates;

pub use items::{name_of, part, string_of};
pub use kinds::{Piece, Printer, Syntax, Trans, syntax_of};
pub use names::{printer_of, trans_of};
pub use symbols::{Target, has_proposition, is_known, target_of};
pub use templates::template_of;
