// Drivers: which transformations, which syntax and which printer.
// They depend on the thin collections; the reader makes them.
use crate::driver_items::{Piece, Printer, Trans};
use outside::{Seq, Text};

/// A driver.
#[derive(Drop)]
pub struct Driver {
    pub printer: Printer,
    /// The transformations, in order.
    pub stages: Seq<Trans>,
    /// The propositions that are removed: a theory's path and a name.
    pub removed: Seq<(Text, Text)>,
    /// The theories all of whose propositions are removed.
    pub all_removed: Seq<Text>,
    /// The templates of symbols, by their entries in the signature.
    pub templates: Seq<(usize, Seq<Piece>)>,
    /// The template of the type `int`.
    pub int_template: Option<Text>,
    /// The template of equality.
    pub eq_template: Option<Seq<Piece>>,
    /// The preludes in order, each with the theory in whose block it is there.
    pub preludes: Seq<(Option<Text>, Text)>,
    /// The number of the file that is fetched next: one more than that of the last file of the driver.
    pub next_file: usize,
}
