// Which rule must have an id (document 02, M-108).
ghost use Rattle.std.specs.Prelude.{◌≡◌};
ghost use Rattle.directives.specs.Steps.{rule_shape, chain_behind, lacks_by};

use crate::Version;
use crate::parts::{Entry, Tally};
use crate::shapes::Shape;

// A rule is a SecRule or a SecAction.
fn is_rule(kind: Shape) -> bool
    ensures { result ≡ rule_shape kind }
{
    matches!(kind, Shape::Rule | Shape::Action)
}

// Whether the next rule continues one: behind a rule if that has `chain`, behind any other directive as before it.
pub fn chain_behind(t: Tally, e: Entry) -> bool
    ensures { result ≡ chain_behind t e }
{
    if is_rule(e.kind) { e.chain } else { t.chained }
}

// A rule that continues none and has no id, where it must have one.
pub fn lacks_id(version: Version, t: Tally, e: Entry) -> bool
    ensures { result ≡ lacks_by version t e }
{
    match version {
        Version::TwoSix => false,
        Version::TwoSeven => is_rule(e.kind) && !t.chained && !e.id,
    }
}
