// Line continuations taken out: normalize_line_continuations, in one pass.
ghost use Rattle.std.specs.Prelude.{◌≡◌, ◌≤◌, length};
ghost use Rattle.actions.specs.Normal.{plain, held, margin, mode_after, text_given};
ghost use Rattle.actions.specs.Steps.{act_text, act_mode, Passed, Normalises};
ghost use Rattle.actions.specs.Cores.{Normalise};

// Plainly; a backslash held back; behind backslash-CR; in the whitespace behind an escaped line end.
#[derive(Clone, Copy)]
pub enum Mode {
    Plain,
    Held,
    AfterCr,
    Margin,
}

// What a byte does: it vanishes, gives itself, or gives itself behind the backslash that was held back.
#[derive(Clone, Copy)]
pub enum Act {
    Vanishes(Mode),
    Gives(u8, Mode),
    Keeps(u8, Mode),
}

fn plain_act(b: u8) -> Act
    ensures { (act_text result ≡ text_given plain b) × (act_mode result ≡ mode_after plain b) }
{
    if b == b'\\' {
        Act::Vanishes(Mode::Held)
    } else {
        Act::Gives(b, Mode::Plain)
    }
}

fn margin_act(b: u8) -> Act
    ensures { (act_text result ≡ text_given margin b) × (act_mode result ≡ mode_after margin b) }
{
    match b {
        b'\t' => Act::Vanishes(Mode::Margin),
        11..=13 => Act::Vanishes(Mode::Margin),
        b' ' => Act::Vanishes(Mode::Margin),
        _ => plain_act(b),
    }
}

fn held_act(b: u8) -> Act
    ensures { (act_text result ≡ text_given held b) × (act_mode result ≡ mode_after held b) }
{
    match b {
        b'\n' => Act::Vanishes(Mode::Margin),
        b'\r' => Act::Vanishes(Mode::AfterCr),
        b'\\' => Act::Gives(b, Mode::Held),
        _ => Act::Keeps(b, Mode::Plain),
    }
}

fn act_of(mode: Mode, b: u8) -> Act
    ensures { (act_text result ≡ text_given mode b) × (act_mode result ≡ mode_after mode b) }
{
    match mode {
        Mode::Plain => plain_act(b),
        Mode::Held => held_act(b),
        Mode::AfterCr => {
            if b == b'\n' {
                return Act::Vanishes(Mode::Margin);
            }
            margin_act(b)
        }
        Mode::Margin => margin_act(b),
    }
}

// Copies the bytes from `i` up to the next backslash, which stand for themselves, and gives the place behind them.
fn pass_plain(s: &[u8], i: usize, out: &mut [u8], n: usize) -> usize
    requires { i ≤ length s.now }
    ensures { Passed s.now i out.old out.new n result }
{
    let past = i + ascii::first_of(&s[i..], b'\\');
    lent::store(out, n, &s[i..past]);
    past
}

// Writes the normalised text to the front of `out`, which is as long as the text at least, and gives its length.
pub fn put_normal(s: &[u8], out: &mut [u8]) -> usize
    requires { length s.now ≤ length out.old }
    ensures { Normalises s.now out.old out.new result }
{
    let mut i = 0;
    let mut n = 0;
    let mut mode = Mode::Plain;
    // by steps of differing widths, since a run without a backslash is copied at once
    loop {
        if let Mode::Plain = mode {
            let past = pass_plain(s, i, out, n);
            n += past - i;
            i = past;
        }
        if s.len() <= i {
            break;
        }
        match act_of(mode, s[i]) {
            Act::Vanishes(m) => mode = m,
            Act::Gives(x, m) => {
                out[n] = x;
                n += 1;
                mode = m;
            }
            Act::Keeps(x, m) => {
                out[n] = b'\\';
                out[n + 1] = x;
                n += 2;
                mode = m;
            }
        }
        i += 1;
    }
    if let Mode::Held = mode {
        out[n] = b'\\';
        n += 1;
    }
    n
}

// The normalised text at the front of a lent buffer, what stands beyond it being kept, and its length; nothing where the buffer is shorter than the text.
pub fn normalise(s: &[u8], out: &mut [u8]) -> Option<usize>
    ensures { Normalise s.now out.old out.new result }
{
    if out.len() < s.len() {
        return None;
    }
    Some(put_normal(s, out))
}
