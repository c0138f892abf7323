// Whether words are an index: number 20.
ghost use Rattle.std.specs.Prelude.{◌≡◌, ◌+◌, ◌*◌, ◌≤◌, length, drop};
ghost use Rattle.index.specs.Standing.{from};
ghost use Rattle.index.specs.Words.{places_in, rules_of, all_zero, sound};

// How many rules so many words have a place for.
#[tactic(auto, unfolding(crate::specs::Words::places_in))]
pub fn places(words: usize) -> usize
    requires { 1 ≤ words }
    ensures { result ≡ places_in words }
{
    (words - 1) / 2
}

// Whether the ids of so many rules ascend strictly.
#[tactic(auto, using(crate::proofs::CheckLaws::climbs))]
fn ascends(words: &[u64], count: usize) -> bool
    requires { 1 + count * 2 ≤ length words.now }
    ensures { result ≡ from 0 (rules_of count (drop 1 words.now)) }
{
    for i in 1..count {
        if words[1 + i * 2] <= words[i * 2 - 1] {
            return false;
        }
    }
    true
}

// Whether all words are 0. No way out of the loop but its end, so that it runs several words at a time.
#[tactic(auto, using(crate::proofs::CheckLaws::zeros))]
fn are_zero(words: &[u64]) -> bool
    ensures { result ≡ all_zero words.now }
{
    let mut bits = 0;
    for word in words {
        bits |= *word;
    }
    bits == 0
}

#[tactic(auto, using(crate::proofs::WordLaws::checks), unfolding(crate::specs::Words::places_in))]
pub fn is_index(words: &[u64]) -> bool
    ensures { result ≡ sound words.now }
{
    let Some(&count) = words.first() else {
        return false;
    };
    if (places(words.len()) as u64) < count {
        return false;
    }
    let n = count as usize;
    ascends(words, n) && are_zero(&words[1 + n * 2..])
}
