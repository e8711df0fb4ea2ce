// The bytes of a number, and the number that they write.
ghost use Rattle.std.specs.Prelude.{◌≡◌, ◌<◌, ◌≤◌, length};
ghost use Rattle.text.specs.Numerals.{size_in, minus_in, signed};

/// The bytes of a number: at most six, the first of them perhaps a minus.
#[derive(Clone, Copy, Debug)]
pub struct Numeral<'a> {
    pub text: &'a [u8],
    ghost short: { length text.now ≤ 6 },
}

impl<'a> Numeral<'a> {
    /// The number that the digits write, whatever its sign.
    // A loop: std's `parse` may fail where this may not, and in a `fold` the proof that the sum fits did not close.
    pub fn size(self) -> u32
        ensures value { result ≡ size_in self.entry.text.now }
        ensures bound { result < 1000000 }
    {
        let mut size = 0;
        for b in self.text {
            if b.is_ascii_digit() {
                size = size * 10 + u32::from(*b - b'0');
            }
        }
        size
    }

    /// Whether the number is below zero; zero has no minus.
    pub fn is_negative(self) -> bool
        ensures { result ≡ minus_in self.entry.text.now }
    {
        self.text.starts_with(b"-") && self.size() > 0
    }

    /// The number that is written.
    pub fn value(self) -> i32
        ensures { result ≡ signed (minus_in self.entry.text.now) (size_in self.entry.text.now) }
    {
        let size = self.size() as i32;
        // Without a look at the size: of zero a minus changes nothing, and the digits are walked once.
        let minus = self.text.starts_with(b"-");
        if minus { -size } else { size }
    }
}

/// Two are equal where they write the same number: 007 is 7, and -0 is 0.
impl PartialEq for Numeral<'_> {
    ghost use Rattle.std.proofs.Common.{rules};
    ghost use Rattle.std.specs.Cmp.Rules.{comparing};
    ghost use Rattle.std.specs.Ordering.{on, int_eq};

    ghost eq = { on (λ n. signed (minus_in n.text.now) (size_in n.text.now)) int_eq };

    ghost laws = { Prim.search (comparing, rules) };

    fn eq(&self, other: &Self) -> bool {
        self.value() == other.value()
    }
}

impl Eq for Numeral<'_> {
    ghost use Rattle.std.proofs.Common.{rules};
    ghost use Rattle.std.specs.Cmp.Rules.{comparing};

    ghost laws = { Prim.search (comparing, rules) };
}
