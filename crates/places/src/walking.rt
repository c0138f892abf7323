// A walk along the bytes that a text was read from: where each byte of the text came from.
ghost use Rattle.std.specs.Prelude.{◌≡◌, ◌+◌, ◌-◌, ◌≤◌, ◌<◌, length, ltb, leb};
ghost use Rattle.ascii.specs.Choice.{pick};
ghost use Rattle.places.specs.Moves.{Site};
ghost use Rattle.places.specs.Steps.{Stands, Paid, Onward, Moved, Reached, Sites, begun, wanted};

use crate::Rule;
use crate::acting::{Mode, Step, act_of};
use crate::running::{begins, blank_run, plain_run};
use ascii::Part;

// `count` bytes of the text are passed, its source is read up to `place`, and the byte passed last is from `first` up to `last`.
#[derive(Clone, Copy)]
pub struct Stand {
    pub count: usize,
    pub place: usize,
    pub mode: Mode,
    pub first: usize,
    pub last: usize,
}

pub fn start(k: usize) -> Stand
    ensures { result ≡ begun k }
{
    Stand {
        count: 0,
        place: k,
        mode: Mode::Plain,
        first: k,
        last: k,
    }
}

// One byte of the source more.
fn stepped(s: &[u8], rule: Rule, w: Stand) -> Stand
    requires { (w.place < length s.now) × Paid w }
    ensures { Onward rule s.now w result }
{
    let place = w.place;
    let next = place + 1;
    match act_of(rule, w.mode, s[place], &s[next..]) {
        Step::Pass(mode) => Stand {
            place: next,
            mode,
            ..w
        },
        Step::Keep(mode) => Stand {
            count: w.count + 1,
            place: next,
            mode,
            first: place,
            last: next,
        },
        Step::Turn(mode) => Stand {
            count: w.count + 1,
            place: next,
            mode,
            first: place.saturating_sub(1),
            last: next,
        },
    }
}

// At least one byte of the source more: all that give nothing at once, and all up to the next backslash, where they stand for themselves.
fn moved(s: &[u8], rule: Rule, w: Stand, n: usize) -> Stand
    requires { (w.place < length s.now) × Paid w × (w.count < n) }
    ensures { Moved rule s.now w n result }
{
    let place = w.place;
    let mode = w.mode;
    let blank = blank_run(s, rule, mode, place);
    if 0 < blank {
        return Stand {
            place: place + blank,
            mode: Mode::Margin,
            ..w
        };
    }
    if begins(mode, s[place]) {
        let run = plain_run(s, place, n - w.count);
        if 0 < run {
            let past = place + run;
            return Stand {
                count: w.count + run,
                place: past,
                mode: Mode::Plain,
                first: past - 1,
                last: past,
            };
        }
    }
    stepped(s, rule, w)
}

// Where the byte came from that is passed with `stop` of them, once it is: bytes that are passed at once stand one behind another.
fn noted_by(noted: usize, stop: usize, passed: usize, next: Stand) -> usize
    requires { next.count ≤ passed + 1 + next.first }
    ensures { result ≡ pick (leb stop passed) noted (pick (ltb next.count stop) noted (next.first - (next.count - stop))) }
{
    if stop <= passed || next.count < stop {
        return noted;
    }
    next.first - (next.count - stop)
}

// On until n bytes of the text are passed, or the source ends; says where the one came from that is passed with `stop` of them.
#[tactic(auto, using(crate::proofs::WalkLaws::reaching_on))]
fn pass_to(s: &[u8], rule: Rule, w: &mut Stand, stop: usize, n: usize) -> usize
    requires { Paid w.old × (w.old.count ≤ stop) × (w.old.count ≤ n) }
    ensures { Reached rule s.now w.old stop n w.new result }
{
    let mut noted = w.first;
    while w.count < n && w.place < s.len() {
        let next = moved(s, rule, *w, n);
        noted = noted_by(noted, stop, w.count, next);
        *w = next;
    }
    noted
}

// How many bytes are passed where the part's first one is, or, of an empty part, the one before it.
fn first_stop(first: usize, past: usize) -> usize
    ensures { result ≡ wanted first past }
{
    if first < past { first + 1 } else { past }
}

// Where a part of the text stands, by a walk that stands anywhere: on from there, or anew where so many bytes are passed already.
// The three that say what was read, s, k and rule, stay parameters, as other crates call `site` and `resite` with them.
pub fn site_from(s: &[u8], k: usize, rule: Rule, w: &mut Stand, first: usize, past: usize) -> Part
    requires { Stands rule s.now k w.old × Paid w.old }
    ensures { Sites s.now k rule first past w.new result }
{
    let stop = first_stop(first, past);
    if stop < w.count {
        *w = start(k);
    }
    let noted = pass_to(s, rule, w, stop, past);
    let last = w.last;
    if first < past && first < w.count {
        return Part {
            first: noted,
            past: last,
        };
    }
    Part {
        first: last,
        past: last,
    }
}

// Where the part from `first` up to `past` stands of the text that was read by a rule from the place k on.
pub fn site(s: &[u8], k: usize, rule: Rule, first: usize, past: usize) -> Part
    ensures { Site s.now k rule first past result }
{
    site_from(s, k, rule, &mut start(k), first, past)
}
