// The refutation of a part of the goal of `stress`.
// It depends on templates.
ghost use Rattle.std.specs.Prelude.{◌≡◌, ◌++◌, ◌≤◌, OnOk, IfOk};
ghost use Rattle.stress_gen.specs.Texts.{symbol_line, implication_line, negation_line, first_steps, next_steps, for_each, refutation_text};

use crate::templates::push_filled;
use std::alloc::{AllocError, Global};

// Appends the lines of so many predicates.
fn push_symbols(alloc: Global, text: &mut Vec<u8>, many: u64) -> Result<(), AllocError>
    ensures { OnOk result (text.new.items ≡ text.old.items ++ for_each symbol_line many) }
{
    for i in 0..many {
        push_filled(alloc, text, b"e sym p%_%\n", &[i, i + 1])?;
    }
    Ok(())
}

// Appends the lines of so many implications.
fn push_implications(alloc: Global, text: &mut Vec<u8>, many: u64) -> Result<(), AllocError>
    ensures { OnOk result (text.new.items ≡ text.old.items ++ for_each implication_line many) }
{
    for i in 0..many {
        push_filled(alloc, text, b"e imp % %\n", &[i, i + 1])?;
    }
    Ok(())
}

// Appends the lines of so many negations.
fn push_negations(alloc: Global, text: &mut Vec<u8>, many: u64) -> Result<(), AllocError>
    ensures { OnOk result (text.new.items ≡ text.old.items ++ for_each negation_line many) }
{
    for i in 0..many {
        push_filled(alloc, text, b"e not %\n", &[i])?;
    }
    Ok(())
}

// Appends the steps of the negation of the predicate after this one.
fn push_next_steps(alloc: Global, text: &mut Vec<u8>, part: u64, j: u64) -> Result<(), AllocError>
    requires part { part ≤ 200 }
    requires below { j ≤ part }
    ensures { OnOk result (text.new.items ≡ text.old.items ++ next_steps part j) }
{
    let denied = part * 2 + 2 + j;
    let implication = part + 1 + j;
    let before = part * 2 + 1 + j;
    push_filled(
        alloc,
        text,
        b"s % % % : clash 2 0 :\n",
        &[denied, implication, j + 1],
    )?;
    push_filled(
        alloc,
        text,
        b"s % % % : keep 2 : %\n",
        &[denied, implication, before, j * 4 + 1],
    )?;
    push_filled(
        alloc,
        text,
        b"s % % : imp 1 : % %\n",
        &[denied, implication, j * 4 + 3, j * 4 + 2],
    )?;
    push_filled(
        alloc,
        text,
        b"s % : fact % : %\n",
        &[denied, j + 1, j * 4 + 4],
    )?;
    Ok(())
}

// Appends the steps of all negations.
fn push_steps(alloc: Global, text: &mut Vec<u8>, part: u64) -> Result<(), AllocError>
    requires { part ≤ 200 }
    ensures { OnOk result (text.new.items
        ≡ text.old.items ++ first_steps part ++ for_each (next_steps part) part) }
{
    let denied = part * 2 + 1;
    push_filled(
        alloc,
        text,
        b"s % 0 : clash 1 0 :\ns % : fact 0 : 0\n",
        &[denied, denied],
    )?;
    for j in 0..part {
        push_next_steps(alloc, text, part, j)?;
    }
    Ok(())
}

/// The refutation of a part, 1 to 200. Only want of memory refuses.
pub fn refutation(alloc: Global, part: u64) -> Result<Vec<u8>, AllocError>
    requires { part ≤ 200 }
    ensures { IfOk result (λ v. v.items ≡ refutation_text part) }
{
    let mut text = Vec::new(alloc);
    push_symbols(alloc, &mut text, part + 1)?;
    push_implications(alloc, &mut text, part)?;
    push_negations(alloc, &mut text, part + 1)?;
    push_steps(alloc, &mut text, part)?;
    Ok(text)
}
