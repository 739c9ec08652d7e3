// The items of a driver, one after another, but for imports.
// They depend on what the lines say, on the parts and on the context; the reader of files depends on them.
ghost use Rattle.std.specs.Prelude.{◌≡◌, None, Ok, Some, map, option_map};
ghost use Rattle.drivers.specs.driver_tokens.Tokens.{lexeme_in};
ghost use Rattle.drivers.specs.driver_items.Items.{string_value_of};
ghost use Rattle.drivers.specs.driver_items.Names as names;
ghost use Rattle.drivers.specs.driver_items.Templates as templates;
ghost use Rattle.drivers.specs.driver_parts.Items.{item_of};
ghost use Rattle.drivers.specs.driver_parts.Lines.{item_in, removal_in, template_item};
ghost use Rattle.drivers.specs.driver_parts.Parts.{with_all_removed, with_prelude};
ghost use Rattle.drivers.specs.driver_parts.Steps as spec;
ghost use Rattle.drivers.specs.driver_parts.Steps.{MeetsResult};

use crate::driver_items::{
    Target, has_proposition, is_known, name_of, part, printer_of, string_of, target_of,
    template_of, trans_of,
};
use crate::driver_parts::context::{DriverContext, FileText};
use crate::driver_parts::fault::DriverFault;
use crate::driver_parts::parts::{DriverParts, set_template};
use crate::driver_tokens::{DriverTerminal, DriverToken, DriverWord, Heading, NameKind};
use outside::Text;
use std::alloc::Global;

fn set_printer(
    alloc: Global,
    at: FileText<'_>,
    parts: &mut DriverParts,
    string: DriverToken,
) -> Result<(), DriverFault>
    ensures { MeetsResult result parts.new
        (spec.printer_read at.entry.file string.start parts.old (names.printer_of
        (string_value_of (lexeme_in at.entry.text.now string)))) }
{
    let word = string_of(alloc, at.text, string)?;
    match printer_of(word.as_slice()) {
        Some(printer) => {
            parts.printer = Some(printer);
            Ok(())
        }
        None => Err(DriverFault::UnknownPrinter {
            file: at.file,
            byte: string.start,
        }),
    }
}

fn push_stage(
    alloc: Global,
    at: FileText<'_>,
    parts: &mut DriverParts,
    string: DriverToken,
) -> Result<(), DriverFault>
    ensures { MeetsResult result parts.new
        (spec.staged at.entry.file string.start parts.old (names.trans_of
        (string_value_of (lexeme_in at.entry.text.now string)))) }
{
    let word = string_of(alloc, at.text, string)?;
    match trans_of(word.as_slice()) {
        Some(stage) => {
            parts.stages.push(stage)?;
            Ok(())
        }
        None => Err(DriverFault::UnknownTransformation {
            file: at.file,
            byte: string.start,
        }),
    }
}

/// A template for what its name stands for.
fn put_template(
    alloc: Global,
    file: usize,
    byte: usize,
    parts: &mut DriverParts,
    target: Target,
    arity: usize,
    template: &[u8],
) -> Result<(), DriverFault>
    ensures { MeetsResult result parts.new (spec.templated file byte parts.old target
        (templates.template_pieces template.now arity)) }
{
    match template_of(alloc, template, arity)? {
        Some(pieces) => {
            set_template(alloc, parts, target, pieces)?;
            Ok(())
        }
        None => Err(DriverFault::BadTemplate { file, byte }),
    }
}

/// A template for a name, whose first byte is told where it is for nothing.
fn put_named(
    alloc: Global,
    file: usize,
    name_byte: usize,
    byte: usize,
    parts: &mut DriverParts,
    target: Option<(Target, usize)>,
    template: &[u8],
) -> Result<(), DriverFault>
    ensures { MeetsResult result parts.new (spec.targeted file name_byte byte template.now parts.old
        target) }
{
    match target {
        Some((target, arity)) => put_template(alloc, file, byte, parts, target, arity, template),
        None => Err(DriverFault::UnknownSymbol {
            file,
            byte: name_byte,
        }),
    }
}

/// A line `syntax KIND NAME STRING` in the block of a known theory.
fn take_template(
    context: DriverContext<'_>,
    at: FileText<'_>,
    path: &[u8],
    parts: &mut DriverParts,
    kind: NameKind,
    tokens: &[DriverToken],
) -> Result<(), DriverFault>
    ensures { MeetsResult result parts.new (spec.block_step context.entry.symbols.now
        context.entry.theories.now at.entry.file path.now
        (template_item at.entry.text.now kind tokens.now) parts.old) }
{
    let last = tokens.len().saturating_sub(1);
    match (tokens.get(2), tokens.get(last)) {
        (Some(first), Some(string)) => {
            let name = name_of(context.alloc, at.text, part(tokens, 2, last))?;
            let value = string_of(context.alloc, at.text, *string)?;
            let target = target_of(context.symbols, path, kind, name.as_slice());
            put_named(
                context.alloc,
                at.file,
                first.start,
                string.start,
                parts,
                target,
                value.as_slice(),
            )
        }
        _ => Ok(()),
    }
}

/// A line `remove prop NAME` in the block of a known theory.
fn take_removal(
    context: DriverContext<'_>,
    at: FileText<'_>,
    path: &[u8],
    parts: &mut DriverParts,
    tokens: &[DriverToken],
) -> Result<(), DriverFault>
    ensures { MeetsResult result parts.new (spec.block_step context.entry.symbols.now
        context.entry.theories.now at.entry.file path.now
        (removal_in at.entry.text.now tokens.now) parts.old) }
{
    match tokens.get(2) {
        Some(first) => {
            let name = name_of(context.alloc, at.text, part(tokens, 2, tokens.len()))?;
            if !has_proposition(context.theories, path, name.as_slice()) {
                return Err(DriverFault::UnknownSymbol {
                    file: at.file,
                    byte: first.start,
                });
            }
            let path = Text::from_slice(context.alloc, path)?;
            parts.removed.push((path, name))?;
            Ok(())
        }
        None => Ok(()),
    }
}

fn push_all_removed(alloc: Global, path: &[u8], parts: &mut DriverParts) -> Result<(), DriverFault>
    ensures { MeetsResult result parts.new (Ok (with_all_removed parts.old path.now)) }
{
    let path = Text::from_slice(alloc, path)?;
    parts.all_removed.push(path)?;
    Ok(())
}

fn push_prelude(
    alloc: Global,
    text: &[u8],
    path: Option<&[u8]>,
    parts: &mut DriverParts,
    string: DriverToken,
) -> Result<(), DriverFault>
    ensures { MeetsResult result parts.new (Ok (with_prelude parts.old (option_map (λ p. p.now)
        path.entry) (string_value_of (lexeme_in text.now string)))) }
{
    let value = string_of(alloc, text, string)?;
    let path = match path {
        Some(path) => Some(Text::from_slice(alloc, path)?),
        None => None,
    };
    parts.preludes.push((path, value))?;
    Ok(())
}

/// A line in the block of a known theory, by its first two tokens.
fn block_line(
    context: DriverContext<'_>,
    at: FileText<'_>,
    path: &[u8],
    parts: &mut DriverParts,
    first: DriverTerminal,
    second: DriverToken,
    tokens: &[DriverToken],
) -> Result<(), DriverFault>
    ensures { MeetsResult result parts.new (spec.block_step context.entry.symbols.now
        context.entry.theories.now at.entry.file path.now
        (item_in at.entry.text.now first second tokens.now) parts.old) }
{
    match (first, second.terminal) {
        (DriverTerminal::Word(DriverWord::Syntax), DriverTerminal::Word(DriverWord::Kind(kind))) =>
            take_template(context, at, path, parts, kind, tokens),
        (DriverTerminal::Word(DriverWord::Remove), DriverTerminal::Word(DriverWord::Prop)) => {
            take_removal(context, at, path, parts, tokens)
        }
        (DriverTerminal::Word(DriverWord::Remove), DriverTerminal::Word(DriverWord::Allprops)) => {
            push_all_removed(context.alloc, path, parts)
        }
        (DriverTerminal::Word(DriverWord::Prelude), _) => {
            push_prelude(context.alloc, at.text, Some(path), parts, second)
        }
        _ => Ok(()),
    }
}

/// A line outside of blocks, by its first two tokens, but for printers and transformations.
fn top_line(
    context: DriverContext<'_>,
    at: FileText<'_>,
    parts: &mut DriverParts,
    first: DriverTerminal,
    second: DriverToken,
    tokens: &[DriverToken],
) -> Result<(), DriverFault>
    ensures { MeetsResult result parts.new
        (spec.item_in_block context.entry.symbols.now context.entry.theories.now at.entry.file
        None (item_in at.entry.text.now first second tokens.now) parts.old) }
{
    match first {
        DriverTerminal::Word(DriverWord::Prelude) => {
            push_prelude(context.alloc, at.text, None, parts, second)
        }
        _ => Ok(()),
    }
}

/// A line, by its first two tokens.
fn take_two(
    context: DriverContext<'_>,
    at: FileText<'_>,
    block: &Option<Text>,
    parts: &mut DriverParts,
    first: DriverTerminal,
    second: DriverToken,
    tokens: &[DriverToken],
) -> Result<(), DriverFault>
    ensures { MeetsResult result parts.new
        (spec.item_step context.entry.symbols.now context.entry.theories.now at.entry.file
        block.now (item_in at.entry.text.now first second tokens.now) parts.old) }
{
    match first {
        DriverTerminal::Word(DriverWord::Heading(Heading::Printer)) => {
            set_printer(context.alloc, at, parts, second)
        }
        DriverTerminal::Word(DriverWord::Heading(Heading::Transformation)) => {
            push_stage(context.alloc, at, parts, second)
        }
        _ => match block {
            None => top_line(context, at, parts, first, second, tokens),
            Some(path) => {
                let path = path.as_slice();
                if is_known(context.theories, path) {
                    block_line(context, at, path, parts, first, second, tokens)
                } else {
                    Ok(())
                }
            }
        },
    }
}

/// A line of a file, in the block of a theory or outside of blocks. An import changes nothing here.
pub fn take_line(
    context: DriverContext<'_>,
    at: FileText<'_>,
    block: &Option<Text>,
    parts: &mut DriverParts,
    tokens: &[DriverToken],
) -> Result<(), DriverFault>
    ensures { MeetsResult result parts.new
        (spec.item_step context.entry.symbols.now context.entry.theories.now at.entry.file
        block.now (item_of (map (lexeme_in at.entry.text.now) tokens.now)) parts.old) }
{
    if tokens.len() < 2 {
        return Ok(());
    }
    take_two(
        context,
        at,
        block,
        parts,
        tokens[0].terminal,
        tokens[1],
        tokens,
    )
}
