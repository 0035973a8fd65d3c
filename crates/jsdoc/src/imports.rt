// The imports of a body, by ticks over it.
ghost use Rattle.std.specs.Prelude.{◌≡◌, length};
ghost use Rattle.jsdoc.specs.Grammar.{Listed};
ghost use Rattle.jsdoc.specs.code.Ticks.{Ticks};

use super::marks::mark_readings;
use analysis::mode::mode_number;

// Ticks each place of `body` at which the place of a reading begins with 1 + the number of its mode, and each
// other with 0.
pub fn tick_imports(body: &[u8], ticks: &mut [u8])
    requires { length ticks.old ≡ length body.now }
    ensures { Ticks (Listed body.now) (length body.now) ticks.new }
{
    ticks.fill(0);
    mark_readings(body, ticks, &|_, _, mode| mode_number(mode) + 1);
}
