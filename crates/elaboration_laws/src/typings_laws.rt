// What is elaborated is what typing rules without unknowns say: typings are solutions, and the other way round.
ghost use Rattle.std.specs.Prelude.{◌≡◌, ℕ, false, List, map, Option, None};
ghost use Rattle.std.specs.Option.{is_none};
ghost use Rattle.elab_groups.specs.trees.Tree.{Tree};
ghost use Rattle.elab_groups.specs.tasks.Vocabulary.{Vocabulary};
ghost use Rattle.elab_groups.specs.open_types.unify_types.Assigned.{assign};
ghost use Rattle.elab_groups.specs.open_types.unify_types.Pairs.{IsSolution};
ghost use Rattle.elab_groups.specs.name_resolution.Abstract.{Expression};
ghost use Rattle.elab_groups.specs.name_resolution.Faults.{fault};
ghost use Rattle.elab_groups.specs.name_resolution.Where.{Where};
ghost use Rattle.elab_groups.specs.open_types.Patterns.{LocalTree};
ghost use Rattle.elab_groups.specs.open_types.Pieces.{piece, names};
ghost use Rattle.elab_groups.specs.declared.parts.solution.TypingFault.TheVariants.{Clash, Undetermined};
ghost use Rattle.elab_groups.specs.parts.Elaborated.{IsSolved, IsTypingFault};
ghost use Rattle.elab_groups.specs.parts.Declarations.{GroupMember};
ghost use Rattle.elab_groups.specs.members.Members.{SignatureTree};
ghost use Rattle.elab_groups.specs.Groups.{most_variables, bodies_pieces, pieces_notes, pieces_trees, BodiesSolved};
ghost use Rattle.elaboration_laws.specs.GroupTypings.{AreNamedBodies, ElaborateTo, ArePiecesAt, AreOnlyTypings, AreFirstDifferent};
ghost use Rattle.elaboration_laws.specs.Typed.{IsNamedExpression};
ghost use Rattle.elaboration_laws.specs.NodeTypes.{nodes_of, bodies_nodes, IsFirstOpenNode};
ghost use Rattle.elaboration_laws.specs.Typings.{Choice, ElaboratesTo, IsPieceAt, HasOwnTypes, choices_from, IsOnlyTyping, IsFirstDifference};

/// A law: each typing of an expression is its piece at a solution of its type equations, where the
/// unknowns have the types that the typing chooses, in order.
pub fn typings_are_solutions()
    ensures { (w : Where) (rigid : ℕ) (ls : List LocalTree) (t : Option Tree) (a : Expression)
        (e : Tree) (cs : List Choice) → HasOwnTypes w rigid ls t
        → fault w false (names ls) (is_none t) a ≡ None → ElaboratesTo w ls t a e cs
        → IsPieceAt rigid (piece w ls rigid t a) e cs }
{}

/// A law: at each solution of its type equations, the piece of an expression is a typing, which
/// chooses the types of the unknowns, in order.
pub fn solutions_are_typings()
    ensures { (v : Vocabulary) (w : Where) (rigid : ℕ) (ls : List LocalTree) (t : Option Tree)
        (a : Expression) (f : ℕ → Tree) → IsNamedExpression v w ls t a → HasOwnTypes w rigid ls t
        → IsSolution rigid f (piece w ls rigid t a).notes.equations
        → ElaboratesTo w ls t a (assign rigid f (piece w ls rigid t a).tree)
        (choices_from f rigid (piece w ls rigid t a).notes.takers) }
{}

/// A law: where the type equations of an expression determine its tree, that tree is the one of all its
/// typings, of which there is one; where equations clash, it has no typing; and the node that is told
/// as undetermined is the one of the first choice in which two typings differ.
pub fn equations_decide()
    ensures solved { (v : Vocabulary) (w : Where) (rigid : ℕ) (ls : List LocalTree)
        (t : Option Tree) (a : Expression) (e : Tree) (ms : List (ℕ × List Tree))
        → IsNamedExpression v w ls t a → HasOwnTypes w rigid ls t
        → IsSolved rigid (piece w ls rigid t a) e ms → IsOnlyTyping w ls t a e }
    ensures clash { (v : Vocabulary) (w : Where) (rigid : ℕ) (ls : List LocalTree)
        (t : Option Tree) (a : Expression) (k : ℕ) (e : Tree) (cs : List Choice)
        → IsNamedExpression v w ls t a → HasOwnTypes w rigid ls t
        → IsTypingFault rigid (piece w ls rigid t a).notes (Clash k)
        → ElaboratesTo w ls t a e cs → ⊥ }
    ensures undetermined { (v : Vocabulary) (w : Where) (rigid : ℕ) (ls : List LocalTree)
        (t : Option Tree) (a : Expression) (token : ℕ)
        → IsNamedExpression v w ls t a → HasOwnTypes w rigid ls t
        → IsTypingFault rigid (piece w ls rigid t a).notes (Undetermined token)
        → IsFirstDifference w ls t a token }
{}

/// A law: the bodies of a group, whose type equations are one list, have types each by itself: their
/// typings are the solutions of the equations, and the trees that the equations determine are those of all
/// typings, of which there is one; where equations clash, there is none; and the node that is told as
/// undetermined is the one of the first choice in which two typings differ.
pub fn group_decides()
    ensures typings { (v : Vocabulary) (w : Where) (ms : List GroupMember)
        (gs : List SignatureTree) (es : List Tree) (cs : List Choice)
        → AreNamedBodies v w (most_variables gs) ms gs → ElaborateTo w ms gs es cs
        → ArePiecesAt (most_variables gs) (bodies_pieces w ms gs) es cs }
    ensures solutions { (v : Vocabulary) (w : Where) (ms : List GroupMember)
        (gs : List SignatureTree) (f : ℕ → Tree) → AreNamedBodies v w (most_variables gs) ms gs
        → IsSolution (most_variables gs) f (pieces_notes (bodies_pieces w ms gs)).equations
        → ElaborateTo w ms gs
        (map (assign (most_variables gs) f) (pieces_trees (bodies_pieces w ms gs)))
        (choices_from f (most_variables gs) (pieces_notes (bodies_pieces w ms gs)).takers) }
    ensures solved { (v : Vocabulary) (w : Where) (ms : List GroupMember)
        (gs : List SignatureTree) (es : List Tree) (matches : List (ℕ × List Tree))
        → AreNamedBodies v w (most_variables gs) ms gs → BodiesSolved w ms gs es matches
        → AreOnlyTypings w ms gs es }
    ensures clash { (v : Vocabulary) (w : Where) (ms : List GroupMember)
        (gs : List SignatureTree) (k : ℕ) (es : List Tree) (cs : List Choice)
        → AreNamedBodies v w (most_variables gs) ms gs
        → IsTypingFault (most_variables gs) (pieces_notes (bodies_pieces w ms gs)) (Clash k)
        → ElaborateTo w ms gs es cs → ⊥ }
    ensures undetermined { (v : Vocabulary) (w : Where) (ms : List GroupMember)
        (gs : List SignatureTree) (token : ℕ) → AreNamedBodies v w (most_variables gs) ms gs
        → IsTypingFault (most_variables gs) (pieces_notes (bodies_pieces w ms gs))
        (Undetermined token) → AreFirstDifferent w ms gs token }
{}

/// A law: the node of an expression, or of the bodies of a group, that is told as undetermined is the first
/// one in preorder, one of whose types differs between two solutions of the type equations; in the types of
/// the nodes before it all solutions agree.
pub fn undetermined_is_first()
    ensures expression { (w : Where) (rigid : ℕ) (ls : List LocalTree) (t : Option Tree)
        (a : Expression) (token : ℕ) → HasOwnTypes w rigid ls t
        → fault w false (names ls) (is_none t) a ≡ None
        → IsTypingFault rigid (piece w ls rigid t a).notes (Undetermined token)
        → IsFirstOpenNode rigid (piece w ls rigid t a).notes.equations
        (nodes_of w ls rigid t a) token }
    ensures group { (v : Vocabulary) (w : Where) (ms : List GroupMember)
        (gs : List SignatureTree) (token : ℕ) → AreNamedBodies v w (most_variables gs) ms gs
        → IsTypingFault (most_variables gs) (pieces_notes (bodies_pieces w ms gs))
        (Undetermined token)
        → IsFirstOpenNode (most_variables gs) (pieces_notes (bodies_pieces w ms gs)).equations
        (bodies_nodes w (most_variables gs) ms gs) token }
{}
