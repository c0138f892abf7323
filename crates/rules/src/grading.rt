// The house grade of an action list, out of its records.
ghost use Rattle.std.specs.Prelude.{◌≡◌};
ghost use Rattle.rules.specs.Entries.{entries};
ghost use Rattle.rules.specs.Grades.{fine, grades};

// Whether an action's own number is one that the house takes.
#[tactic(auto, unfolding(crate::specs::Grades::fine))]
fn is_fine(code: u64, number: u64) -> bool
    ensures { result ≡ fine code number }
{
    match code {
        records::ID => 1 <= number,
        records::PHASE => 1 <= number && number <= 5,
        records::SEVERITY => number <= 7,
        records::MATURITY | records::ACCURACY => 1 <= number && number <= 9,
        _ => true,
    }
}

// Whether an action list passes: at most one id, and every number one that the house takes.
#[tactic(auto, using(crate::proofs::GradeLaws::graded))]
pub fn grade(words: &[u64]) -> bool
    ensures { result ≡ grades (entries words.now) }
{
    let mut named = false;
    for record in words.chunks_exact(lent::ACTION_WORDS) {
        if !is_fine(record[0], record[1]) {
            return false;
        }
        if record[0] == records::ID {
            if named {
                return false;
            }
            named = true;
        }
    }
    true
}
