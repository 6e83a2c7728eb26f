// Text in a buffer that the caller lends, by a pen: a byte, a word, a number in decimal, each laid where the pen stands, which
// is then where the next one goes.
//
// Every method here is total: what has no room is cut off, and nothing is written past the end. None has a `requires`.
// Stays: a pen and no `Display`: `Lays` fixes each byte of a lent buffer that may be too short; a `Formatter` answers an error there.
#![tactic(auto)]

ghost use Rattle.std.specs.Prelude.{[], ◌∷◌, ◌≡◌};
ghost use Rattle.text_rules.specs.Decimal.{decimal};
ghost use Rattle.text_rules.specs.Laid.{Laid};
ghost use Rattle.text.specs.Lays.{Lays};

// A lent buffer, and the place where its next byte goes.
#[derive(Drop)]
pub struct Pen<'a> {
    pub out: &'a mut [u8],
    pub at: usize,
}

impl<'a> Pen<'a> {
    pub fn new(out: &'a mut [u8], at: usize) -> Pen<'a>
        ensures same_buffer { result.out.ghost_name ≡ out.entry.ghost_name }
        ensures as_lent { result.out.now ≡ out.old }
        ensures place { result.at ≡ at }
    {
        Pen { out, at }
    }

    pub fn byte(&mut self, b: u8)
        ensures { Lays self.old (b ∷ []) self.new }
    {
        if self.at < self.out.len() {
            self.out[self.at] = b;
            self.at += 1;
        }
    }

    pub fn word(&mut self, text: &[u8])
        ensures { Lays self.old text.now self.new }
    {
        for &b in text {
            self.byte(b);
        }
    }

    // A number in decimal, with no zero in front.
    pub fn number(&mut self, n: usize)
        ensures { Lays self.old (decimal n) self.new }
    {
        self.at = digits(n, self.out, self.at);
    }
}

// A byte at a place, and where the next one goes.
// Stays: a place beside the buffer, as `digits` hands it on.
fn lay(b: u8, out: &mut [u8], at: usize) -> usize
    ensures { Laid out.old at (b ∷ []) out.new result }
{
    let mut pen = Pen::new(out, at);
    pen.byte(b);
    pen.at
}

// The number's digits from a place on, and where the next byte goes. It calls itself for the digits before the last, at most 20
// deep.
// Stays: a place beside the buffer: lent to a function that calls itself, a pen would stand in memory, and each byte of a line
// would look its place up there, with which a header took two fifths longer.
fn digits(n: usize, out: &mut [u8], at: usize) -> usize
    ensures { Laid out.old at (decimal n) out.new result }
{
    if n < 10 {
        return lay(b'0' + n as u8, out, at);
    }
    let e = digits(n / 10, out, at);
    lay(b'0' + (n % 10) as u8, out, e)
}
