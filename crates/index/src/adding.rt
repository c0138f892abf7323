// One rule more.
ghost use Rattle.std.specs.Prelude.{◌≡◌, true};
ghost use Rattle.index.specs.Words.{sound};
ghost use Rattle.index.specs.Promises.{Adds};
ghost use Rattle.index.specs.Steps.{AddsNamed};

use crate::changing::enter;
use crate::checking::{is_index, places};
use crate::seeking::seek;

#[derive(Clone, Copy, Debug, PartialEq, Eq)]
pub enum Added {
    // The rule was entered; how many the index has now.
    Entered(u64),
    // The rule has no id; how many the index has.
    Passed(u64),
}

// Why a rule is not entered.
#[derive(Clone, Copy, Debug, PartialEq, Eq)]
pub enum AddError {
    // 16: the line of the rule that has the id.
    Taken(u64),
    // 17: how many places there are.
    Full(u64),
    // 20: the slice is no index.
    Broken,
}

// A rule with an id, where the words are an index.
#[tactic(auto, using(crate::proofs::WordLaws::sound_some, crate::proofs::PromiseLaws::add_sorted, crate::proofs::PromiseLaws::named_enterable))]
fn add_named(index: &mut [u64], id: u64, line: u64) -> Result<Added, AddError>
    requires { sound index.old ≡ true }
    ensures { AddsNamed id line index.old index.new result }
{
    let count = index[0];
    let n = count as usize;
    match seek(index, n, id) {
        Ok(l) => Err(AddError::Taken(l)),
        Err(place) => {
            let most = places(index.len());
            if most <= n {
                return Err(AddError::Full(most as u64));
            }
            enter(index, n, place, id, line);
            index[0] = count + 1;
            Ok(Added::Entered(count + 1))
        }
    }
}

// A rule by its action records and its directive's line; it goes by its first id.
#[tactic(auto, using(crate::proofs::WordLaws::sound_some))]
pub fn add(index: &mut [u64], actions: &[u64], line: u64) -> Result<Added, AddError>
    ensures { Adds actions.now line index.old index.new result }
{
    if !is_index(index) {
        return Err(AddError::Broken);
    }
    match rules::first_number(actions, records::ID) {
        Some(id) => add_named(index, id, line),
        None => Ok(Added::Passed(index[0])),
    }
}
