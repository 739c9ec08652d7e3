// The templates of a driver, by symbols.
ghost use Rattle.std.specs.Prelude.{◌≡◌, ◌==◌};
ghost use Rattle.std.specs.List.{list_any};
ghost use Rattle.printed_problems.specs.Templates.{has_template};

use drivers::driver_items::Piece;
use drivers::driver_parts::Driver;
use tasks::Seq;

fn has_entry(templates: &[(usize, Seq<Piece>)], symbol: usize) -> bool
    ensures { result ≡ list_any (λ t. t.0 == symbol) templates.now }
{
    templates.iter().any(|t| t.0 == symbol)
}

/// Whether a driver has a template for a symbol, by its entry.
pub fn has_template(driver: &Driver, symbol: usize) -> bool
    ensures { result ≡ has_template driver.now symbol }
{
    if symbol == 0 {
        return driver.int_template.is_some();
    }
    has_entry(driver.templates.as_slice(), symbol)
}
