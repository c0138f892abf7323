// Rules taken out.
ghost use Rattle.index.specs.Promises.{Removes};

use crate::changing::compact;
use crate::checking::is_index;
use rules::RuleIdSelector;

// How many rules were removed, and how many the index has now.
#[derive(Clone, Copy, Debug, PartialEq, Eq)]
pub struct Removed {
    pub removed: u64,
    pub left: u64,
}

// 20: the slice is no index.
#[derive(Clone, Copy, Debug, PartialEq, Eq)]
pub struct Broken;

// The rules whose ids a selector matches.
#[tactic(auto, using(crate::proofs::WordLaws::sound_some, crate::proofs::PromiseLaws::add_sorted, crate::proofs::PromiseLaws::remove_first, crate::proofs::PromiseLaws::remove_last, crate::proofs::PromiseLaws::remove_length))]
pub fn remove(index: &mut [u64], selector: RuleIdSelector) -> Result<Removed, Broken>
    ensures { Removes selector index.old index.new result }
{
    if !is_index(index) {
        return Err(Broken);
    }
    let count = index[0];
    let n = count as usize;
    let kept = compact(index, n, selector);
    let first = 1 + kept * 2;
    let last = 1 + n * 2;
    index[first..last].fill(0);
    let left = kept as u64;
    index[0] = left;
    Ok(Removed {
        removed: count - left,
        left,
    })
}
