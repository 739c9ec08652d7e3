// The texts of the embedded library, each with the path of its theory.
// They depend on nothing; the reader of the library depends on them.

/// The path of a theory, and the text of its file.
pub type Entry = (&'static str, &'static str);

/// The library, in the order in which its theories are known.
pub static LIBRARY: [Entry; 9] = [
    (
        "int.Int",
        "theory Int
  function (-_) int : int
  function (+) int int : int
  function (-) int int : int
  function (*) int int : int
  predicate (<) int int
  predicate (<=) int int
  predicate (>) int int
  predicate (>=) int int
  axiom Mul_comm: forall x y: int. x * y = y * x
  axiom Mul_assoc: forall x y z: int. (x * y) * z = x * (y * z)
  axiom Mul_distr: forall x y z: int. x * (y + z) = x * y + x * z
end
",
    ),
    (
        "int.Abs",
        "theory Abs
  use int.Int
  function abs (x: int) : int = if x >= 0 then x else - x
end
",
    ),
    (
        "int.MinMax",
        "theory MinMax
  use int.Int
  function min (x y: int) : int = if x <= y then x else y
  function max (x y: int) : int = if x <= y then y else x
end
",
    ),
    (
        "bool.Bool",
        "theory Bool
  type bool = True | False
  function andb (x y: bool) : bool = match x with True -> y | False -> False end
  function orb (x y: bool) : bool = match x with True -> True | False -> y end
  function notb (x: bool) : bool = match x with True -> False | False -> True end
end
",
    ),
    (
        "option.Option",
        "theory Option
  type option 'a = None | Some 'a
end
",
    ),
    (
        "list.List",
        "theory List
  type list 'a = Nil | Cons 'a (list 'a)
end
",
    ),
    (
        "list.Length",
        "theory Length
  use int.Int
  use list.List
  function length (l: list 'a) : int = match l with Nil -> 0 | Cons _ r -> 1 + length r end
  lemma Length_nonnegative: forall l: list 'a. length l >= 0
end
",
    ),
    (
        "list.Mem",
        "theory Mem
  use list.List
  predicate mem (x: 'a) (l: list 'a) = match l with Nil -> false | Cons y r -> x = y \\/ mem x r end
end
",
    ),
    (
        "list.Append",
        "theory Append
  use list.List
  function (++) (l1 l2: list 'a) : list 'a = match l1 with Nil -> l2 | Cons x r -> Cons x (r ++ l2) end
  lemma Append_assoc: forall a b c: list 'a. a ++ (b ++ c) = (a ++ b) ++ c
  lemma Append_l_nil: forall l: list 'a. l ++ Nil = l
end
",
    ),
];
