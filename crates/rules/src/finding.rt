// The first action of a code among records.
ghost use Rattle.std.specs.Prelude.{◌≡◌};
ghost use Rattle.rules.specs.Entries.{entries, first_of};

// The number of the first action of a code, as it stands.
#[tactic(auto, using(crate::proofs::FindLaws::found))]
pub fn first_number(words: &[u64], code: u64) -> Option<u64>
    ensures { result ≡ first_of code (entries words.now) }
{
    for record in words.chunks_exact(lent::ACTION_WORDS) {
        if record[0] == code {
            return Some(record[1]);
        }
    }
    None
}
