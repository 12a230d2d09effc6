// The names of the negotiators.
ghost use Rattle.negotiate.specs.Numbers.{Named};

use book::types::Denial;
use model::Algorithm;

// The negotiator of this name, read exactly as written; `default` is consecutive. Kept for
// callers: `parse` does the same.
pub fn algorithm_named(name: &str) -> Result<Algorithm, Denial>
    ensures { Named name.now result }
{
    name.parse()
}
