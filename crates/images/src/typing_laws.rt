// Typing of trees whose variables may have any index, however great: types put in, open terms put in, and the image under a rule at one
// node keep it, though parts of what is made may be dropped later and fit no store; no code.
//
// Contract: definitions and laws.

ghost use Rattle.images.specs.typing_laws.Laws.{
  TypedHasTyping,
  SmallIsTyped,
  TypesKeepTyping,
  TermsKeepTyping,
  ImagesHaveTyping,
  ImagesAtTypes,
};

/// The laws of typing without the bound on indices: a typed tree has it, and a closed tree that has it
/// and isn't too large is typed; types and open terms put in keep it. It does nothing when it runs.
pub fn law_of_typing()
    ensures typed { TypedHasTyping }
    ensures small { SmallIsTyped }
    ensures types { TypesKeepTyping }
    ensures terms { TermsKeepTyping }
{}

/// The laws of images: where a rule keeps sort, type and typing at one node, and adds no type variable
/// or parameter, so does the image of a tree; where it commutes with types that are put in at one node,
/// so does the image. It does nothing when it runs.
pub fn law_of_typed_images()
    ensures typing { ImagesHaveTyping }
    ensures types { ImagesAtTypes }
{}
