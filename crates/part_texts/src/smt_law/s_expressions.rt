// S-expressions as SMT-LIB has them, and laws of their texts; no code.
//
// Contract: definitions and laws: a text is that of one expression at most, and lines those of one list.

ghost use Rattle.part_texts.specs.smt_law.s_expressions.Laws.{LawOfExpressions, LawOfLines};

/// That a text is the text of one expression at most, and lines those of one list of expressions at
/// most, where no word has a blank, a line feed or a parenthesis in it and none is empty: for readers
/// to cite. It does nothing when it runs.
pub fn laws()
    ensures expressions { LawOfExpressions }
    ensures lines { LawOfLines }
{}
