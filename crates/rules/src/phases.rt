// A rule's phase, out of the records of its actions.
ghost use Rattle.std.specs.Prelude.{◌≡◌};
ghost use Rattle.rules.specs.Entries.{entries};
ghost use Rattle.rules.specs.Phases.{phase_of};

use crate::finding::first_number;

// The number of the first phase, as it stands, else 2.
#[tactic(auto, unfolding(crate::specs::Phases::phase_of))]
pub fn phase(words: &[u64]) -> u64
    ensures { result ≡ phase_of (entries words.now) }
{
    first_number(words, records::PHASE).unwrap_or(2)
}
