// The law of texts: what a text in SMT-LIB tells of its problem, where the templates of the driver are plain; no code.
//
// Contract: definitions and the law.

ghost use Rattle.part_texts.specs.smt_law.Law.{LawOfTexts, NamesAreSpelt, ScopedNamesAreSpelt};
ghost use Rattle.part_texts.specs.smt_law.Shipped.{ShippedArePlain, ShippedAreRead};

/// The law of texts, for readers to cite: where the templates of a driver are plain, two problems of
/// one signature and one table, with the same preludes and part numbers, that have the same text in
/// SMT-LIB have the same list of facts followed by locals, and the same goal; `&&` is read as `/\`
/// and `||` as `\/`. The templates of `drivers/smt_syntax.drv` are plain over every valid task, and
/// a driver that is read from this file has them, where the names of int.Int stand for the entries 1
/// to 8. The names of a table are as the law wants them where those of the symbols are ordinary, as
/// are those of the task of each goal of a source (`theories::names_words`, `scoped`). It does
/// nothing when it runs.
pub fn law_of_texts()
    ensures law { LawOfTexts }
    ensures shipped { ShippedArePlain }
    ensures read { ShippedAreRead }
    ensures spelt { NamesAreSpelt }
    ensures scoped { ScopedNamesAreSpelt }
{}

pub mod s_expressions;
