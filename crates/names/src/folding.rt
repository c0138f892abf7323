// Letters folded in a word of up to eight bytes, all at once.
ghost use Rattle.std.specs.Prelude.{◌≡◌, ◌≤◌};
ghost use Rattle.names.specs.Words.{tops, turned, Folds};

// 127 in each byte, and 128.
const SEVENS: u64 = 0x7f7f7f7f7f7f7f7f;

const TOPS: u64 = 0x8080808080808080;

// Bytes from one on, up to another, with the bit changed that capital and small letters differ in. `from` brings the first of
// them to 128, in each byte of a word, and `past` the first behind them; no sum goes past its byte.
fn turn(word: u64, from: u64, past: u64) -> u64
    requires { (from ≤ tops) × (past ≤ tops) }
    ensures { result ≡ turned word from past }
{
    let low = word & SEVENS;
    let among = (low + from) ^ (low + past);
    let letters = among & (word ^ TOPS) & TOPS;
    word ^ (letters >> 2)
}

// All letters capitals, or all small: 97 and 31 are 128, 123 and 5; 65 and 63, 91 and 37.
pub fn fold(word: u64, capitals: bool) -> u64
    ensures { Folds capitals word result }
{
    if capitals {
        turn(word, 0x1f1f1f1f1f1f1f1f, 0x0505050505050505)
    } else {
        turn(word, 0x3f3f3f3f3f3f3f3f, 0x2525252525252525)
    }
}
