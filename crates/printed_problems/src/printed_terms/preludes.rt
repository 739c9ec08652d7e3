// Preludes as lines.
ghost use Rattle.std.specs.Prelude.{OnOk};
ghost use Rattle.std.specs.List.{flat_map};
ghost use Rattle.printed_problems.specs.printed_terms.Problems.{line};
ghost use Rattle.printed_problems.specs.printed_terms.Meaning.{Appends};

use std::alloc::AllocError;
use tasks::Text;

/// Appends preludes, each as a line.
pub fn push_preludes(out: &mut Vec<u8>, preludes: &[Text]) -> Result<(), AllocError>
    ensures { OnOk result (Appends out.old.items (flat_map line preludes.now) out.new.items) }
{
    for prelude in preludes {
        out.extend_from_slice(prelude.as_slice())?;
        out.extend_from_slice(b"\n")?;
    }
    Ok(())
}
