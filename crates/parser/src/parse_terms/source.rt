// A text and its tokens, as the readers take them.
ghost use Rattle.parser.specs.parse_terms.Texts.{HasTexts};

use tokens_why::Token;

/// The tokens of a text, or the first of them, with the text.
#[derive(Clone, Copy)]
pub struct Source<'a> {
    pub tokens: &'a [Token],
    pub text: &'a [u8],
    ghost texts: { HasTexts text.now tokens.now },
}
