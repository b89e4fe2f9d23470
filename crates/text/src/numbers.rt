// A number in decimal on a page.
ghost use Rattle.std.specs.Prelude.{◌≡◌, ◌≤◌, drop};
ghost use Rattle.text.specs.Text.{decimal};
ghost use Rattle.text.specs.Puts.{PutsDecimal, PutsNamed, OnPage};

use super::Page;

// Puts the digits at the end, the last one first; answers the place of the first one.
// By hand, as std's Display promises nothing of a buffer where it answers an error, and PutsDecimal does.
#[tactic(auto, using(crate::proofs::Decimal::put_only))]
fn spell(n: u32, digits: &mut [u8; 10]) -> usize
    ensures place { result ≤ 10 }
    ensures spelt { drop result digits.new ≡ decimal n }
{
    let mut rest = n;
    // By place: that of the first digit is the answer.
    for first in (0..10).rev() {
        digits[first] = b'0' + (rest % 10) as u8;
        rest /= 10;
        if rest == 0 {
            return first;
        }
    }
    // A number has at most ten digits.
    unreachable!()
}

impl<'a> Page<'a> {
    pub fn put_decimal(&mut self, n: u32)
        ensures { OnPage (PutsDecimal n) self.old self.new }
    {
        let mut digits = [0u8; 10];
        let first = spell(n, &mut digits);
        self.put_text(&digits[first..]);
    }

    // A text, and then a number.
    pub fn put_named(&mut self, text: &[u8], n: u32)
        ensures { OnPage (PutsNamed text.now n) self.old self.new }
    {
        self.put_text(text);
        self.put_decimal(n);
    }
}
