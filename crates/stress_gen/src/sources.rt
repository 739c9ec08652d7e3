// The source of `stress`.
// It depends on templates.
ghost use Rattle.std.specs.Prelude.{◌≡◌, ◌++◌, ◌≤◌, OnOk, IfOk};
ghost use Rattle.stress_gen.specs.Texts.{predicate_line, chain_axiom, conjunct, for_each, source_text};

use crate::templates::push_filled;
use std::alloc::{AllocError, Global};

// Appends the declarations of so many predicates.
fn push_predicates(alloc: Global, text: &mut Vec<u8>, many: u64) -> Result<(), AllocError>
    ensures { OnOk result (text.new.items ≡ text.old.items ++ for_each predicate_line many) }
{
    for i in 0..many {
        push_filled(alloc, text, b"predicate p%\n", &[i])?;
    }
    Ok(())
}

// Appends so many axioms after the first one.
fn push_axioms(alloc: Global, text: &mut Vec<u8>, many: u64) -> Result<(), AllocError>
    ensures { OnOk result (text.new.items ≡ text.old.items ++ for_each chain_axiom many) }
{
    for j in 0..many {
        let i = j + 1;
        push_filled(alloc, text, b"axiom a%: p% -> p%\n", &[i, j, i])?;
    }
    Ok(())
}

// Appends so many conjuncts after the first one.
fn push_conjuncts(alloc: Global, text: &mut Vec<u8>, many: u64) -> Result<(), AllocError>
    requires { many ≤ 200 }
    ensures { OnOk result (text.new.items ≡ text.old.items ++ for_each conjunct many) }
{
    for j in 0..many {
        push_filled(alloc, text, b" /\\ p%", &[j + 2])?;
    }
    Ok(())
}

/// The source whose goal has so many parts, 1 to 200. Only want of memory refuses.
pub fn source(alloc: Global, parts: u64) -> Result<Vec<u8>, AllocError>
    requires some { 1 ≤ parts }
    requires most { parts ≤ 200 }
    ensures { IfOk result (λ v. v.items ≡ source_text parts) }
{
    let mut text = Vec::from_slice(alloc, b"theory S\n")?;
    push_predicates(alloc, &mut text, parts + 1)?;
    text.extend_from_slice(b"axiom a0: p0\n")?;
    push_axioms(alloc, &mut text, parts)?;
    text.extend_from_slice(b"goal g: p1")?;
    push_conjuncts(alloc, &mut text, parts - 1)?;
    text.extend_from_slice(b"\nend\n")?;
    Ok(text)
}
