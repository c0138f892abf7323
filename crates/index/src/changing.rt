// A rule put into its place, and rules taken out: each one move of the words behind.
ghost use Rattle.std.specs.Prelude.{◌≡◌};
ghost use Rattle.std.specs.List.{copy_within};
ghost use Rattle.index.specs.Steps.{Enterable, Entered, Closable, Sorted, Compacted};

use crate::seeking::{least, past_taken, smaller};
use rules::RuleIdSelector;

// Moves the pairs from a place on up by one, the last word first, and puts a pair there.
#[tactic(auto, using(crate::proofs::ChangeLaws::rise_begun, crate::proofs::ChangeLaws::rise_next, crate::proofs::ChangeLaws::rise_end, crate::proofs::ChangeLaws::enter_end))]
pub fn enter(words: &mut [u64], count: usize, place: usize, id: u64, line: u64)
    requires { Enterable count place words.old }
    ensures { Entered count place id line words.old words.new }
{
    let first = 1 + place * 2;
    let last = 1 + count * 2;
    for at in (first..last).rev() {
        words[at + 2] = words[at];
    }
    words[first] = id;
    words[first + 1] = line;
}

// Moves the words from a place up to the last down to another, the first word first.
#[tactic(auto, using(crate::proofs::ChangeLaws::fall_next))]
fn close(words: &mut [u64], first: usize, past: usize, last: usize)
    requires { Closable first past last words.old }
    ensures { words.new ≡ copy_within words.old past last first }
{
    for i in 0..last - past {
        words[first + i] = words[past + i];
    }
}

// Moves the pairs that the selector leaves to the front, and tells how many they are: ids ascend, so those it takes stand together.
#[tactic(auto, using(crate::proofs::TakenLaws::bounds))]
pub fn compact(words: &mut [u64], count: usize, selector: RuleIdSelector) -> usize
    requires { Sorted count words.old }
    ensures { Compacted count selector words.old words.new result }
{
    let low = smaller(words, count, least(selector));
    let high = past_taken(words, count, low, selector);
    close(words, 1 + low * 2, 1 + high * 2, 1 + count * 2);
    count - (high - low)
}
