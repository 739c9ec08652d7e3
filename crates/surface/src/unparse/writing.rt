// The terminals that were written so far. A refusal of memory is kept to the end, so that no writer has to pass it on.
ghost use Rattle.std.specs.Prelude.{◌≡◌, ◌∷◌, [], false, IfOk};
ghost use Rattle.surface.specs.unparse.Putting.{Puts};

use std::alloc::{AllocError, Global};
use tokens_why::Terminal;

/// Terminals in the order in which they were put. Once memory is refused, what follows doesn't count.
#[derive(Drop)]
pub struct Written {
    terminals: Vec<Terminal>,
    refused: bool,
}

impl Written {
    /// Nothing is written yet.
    pub fn new(alloc: Global) -> Written
        ensures empty { result.terminals.items ≡ [] }
        ensures held { result.refused ≡ false }
    {
        Written {
            terminals: Vec::new(alloc),
            refused: false,
        }
    }

    /// Puts a terminal after the others.
    pub fn push(&mut self, terminal: Terminal)
        ensures { Puts self.old self.new (terminal ∷ []) }
    {
        if self.terminals.push(terminal).is_err() {
            self.refused = true;
        }
    }

    /// All that was put; want of memory where it was refused.
    pub fn finish(self) -> Result<Vec<Terminal>, AllocError>
        ensures held { IfOk result (λ v. self.refused ≡ false) }
        ensures items { IfOk result (λ v. v.items ≡ self.terminals.items) }
    {
        if self.refused {
            Err(AllocError)
        } else {
            Ok(self.terminals)
        }
    }
}
