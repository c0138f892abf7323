// Where rules stand: the one that has an id, or the place that it would have, and those that a selector takes.
ghost use Rattle.std.specs.Prelude.{◌≡◌, ◌+◌, drop};
ghost use Rattle.rules.specs.Selectors.{matched};
ghost use Rattle.index.specs.Words.{rules_of};
ghost use Rattle.index.specs.Steps.{Sorted, Placed, below, seen, least_of, run};

use rules::RuleIdSelector;

// How many of so many rules have ids smaller than this.
pub fn smaller(words: &[u64], count: usize, id: u64) -> usize
    requires { Sorted count words.now }
    ensures { result ≡ below id (rules_of count (drop 1 words.now)) }
{
    let (rules, _) = words[1..].as_chunks::<2>();
    rules[..count].partition_point(|rule| rule[0] < id)
}

// The line of the rule that has the id, or the place that the id would have.
#[tactic(auto, using(crate::proofs::SeekLaws::sought))]
pub fn seek(words: &[u64], count: usize, id: u64) -> Result<u64, usize>
    requires { Sorted count words.now }
    ensures { result ≡ seen id (rules_of count (drop 1 words.now)) }
{
    let place = smaller(words, count, id);
    if place < count && words[1 + place * 2] == id {
        return Ok(words[2 + place * 2]);
    }
    Err(place)
}

// The smallest id that a selector may take.
pub fn least(selector: RuleIdSelector) -> u64
    ensures { result ≡ least_of selector }
{
    match selector {
        RuleIdSelector::Single(id) => id,
        RuleIdSelector::Range(start, _) => start,
    }
}

// The place behind the rules that a selector takes one after another from a place on.
#[tactic(auto, using(crate::proofs::TakenLaws::passing))]
pub fn past_taken(words: &[u64], count: usize, place: usize, selector: RuleIdSelector) -> usize
    requires { Placed count place words.now }
    ensures { result ≡ place + run (matched selector) (drop place (rules_of count (drop 1 words.now))) }
{
    for at in place..count {
        if !selector.matches(words[1 + at * 2]) {
            return at;
        }
    }
    count
}
