// Bytes and numbers written over lent bytes.
ghost use Rattle.std.specs.Prelude.{◌≡◌, ◌^◌, ◌<◌, [], ◌∷◌, length};

use itoa::{Buffer, Integer};

/// Bytes written one after another over lent bytes, as far as these go; `end` counts on past their end.
// A slice with a count and no Vec: the project lends the bytes and has no heap here, and what does not fit is counted too.
#[derive(Drop)]
pub struct Writer<'a> {
    out: &'a mut [u8],
    end: usize,
    // What the types say, for the proofs that see a writer behind a reference.
    ghost countable: { (length out.now < 2 ^ 64) × (end < 2 ^ 64) },
}

impl<'a> Writer<'a> {
    ghost use Rattle.text.specs.Output.{Lays};

    pub fn new(out: &'a mut [u8]) -> Writer<'a>
        ensures same_reference { result.out.ghost_name ≡ out.entry.ghost_name }
        ensures begins { (result.out.now ≡ out.old) × (result.end ≡ 0) }
    {
        Writer { out, end: 0 }
    }

    pub fn put(&mut self, b: u8)
        ensures { Lays self.old (b ∷ []) self.new }
    {
        let Writer { out, end } = self;
        if *end < out.len() {
            out[*end] = b;
        }
        *end = end.saturating_add(1);
    }

    pub fn put_number<I: Integer>(&mut self, k: I)
        ensures { Lays self.old (I.text k) self.new }
    {
        self.put_all(Buffer::new().format(k).as_bytes());
    }

    fn put_all(&mut self, text: &[u8])
        ensures { Lays self.old text.now self.new }
    {
        for b in text {
            self.put(*b);
        }
    }

    /// How many bytes were written, those past the end of the lent ones among them, as far as a `usize` counts.
    pub fn end(&self) -> usize
        ensures { result ≡ self.now.end }
    {
        self.end
    }
}
