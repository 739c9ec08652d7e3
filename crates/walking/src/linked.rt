// An open tree that was made of another one, and lists of arguments likewise.
use congruence::AlikeBy;
use trees::TermId;

/// An open tree that was made of another one, its instance, and evidence that the two instances are alike.
#[derive(Clone, Copy)]
pub struct Linked {
    pub image: TermId,
    pub right: TermId,
    pub alike: AlikeBy,
}

/// An open list of arguments that was made of another one, its instance, an application to them, and evidence that it is alike
/// the application to the others.
#[derive(Clone, Copy)]
pub(crate) struct LinkedArguments {
    pub image: TermId,
    pub list: TermId,
    pub right: TermId,
    pub alike: AlikeBy,
}
