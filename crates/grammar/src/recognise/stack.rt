// A stack that contracts see as a list, from the top down.
ghost use Rattle.std.specs.Prelude.{◌≡◌, [], ◌∷◌, IfOk, MatchOption};

use std::alloc::{AllocError, Global};
use std::marker::Model;

/// A stack that contracts see as a list, from the top down.
#[derive(Drop)]
pub struct Stack {
    items: Vec<usize>,
}

impl Model for Stack {
    ghost use Rattle.std.specs.Prelude.{List, ℕ, reverse};

    ghost Value = { List ℕ };

    ghost view = { λ it. reverse it.items.items };
}

impl Stack {
    /// The empty stack. It takes no memory.
    pub fn new(alloc: Global) -> Stack
        ensures { result ≡ [] }
    {
        Stack {
            items: Vec::new(alloc),
        }
    }

    /// The stack with one more item on top. Only want of memory refuses.
    pub fn push(self, item: usize) -> Result<Stack, AllocError>
        ensures { IfOk result (λ s. s ≡ item ∷ self) }
    {
        let Stack { mut items } = self;
        items.push(item)?;
        Ok(Stack { items })
    }

    /// The item on top and the stack below it, or none where the stack is empty.
    pub fn pop(self) -> Option<(usize, Stack)>
        ensures { MatchOption result (self ≡ []) (λ p. self ≡ p.0 ∷ p.1) }
    {
        let Stack { mut items } = self;
        match items.pop() {
            None => None,
            Some(item) => Some((item, Stack { items })),
        }
    }
}
