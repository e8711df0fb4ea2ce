// Where a run of bytes ends.
ghost use Rattle.std.specs.Prelude.{◌≡◌, ◌≢◌, ℕ, ◌+◌, ◌<◌, ◌≤◌, min, length, true, false, slice_index};
ghost use Rattle.text.specs.Bytes.{kind};
ghost use Rattle.text.specs.declared.bytes.Kind.TheVariants.{Separator};

use crate::bytes::Kind;

/// The first place from `from` on at whose byte `stops` says yes, or the end of the text.
// Each scan says its two bounds itself, as two short clauses: a record of them would be no plainer.
// A `for` over the places: `position` in the rest of the text makes the code of every token longer by half.
pub(crate) fn first_from<F: Fn(u8) -> bool>(text: &[u8], from: usize, stops: F) -> usize
    requires { F.IsAlwaysCallable stops }
    ensures after { min from (length text.now) ≤ result }
    ensures within { result ≤ length text.now }
    ensures stopped { result < length text.now → F.post stops (slice_index text.now result) true }
    ensures passed { (k : ℕ) → from + k < result → F.post stops (slice_index text.now (from + k)) false }
{
    for place in from..text.len() {
        if stops(text[place]) {
            return place;
        }
    }
    text.len()
}

/// The first place from `from` on that holds no separator, or the end of the text.
pub fn past_separators(text: &[u8], from: usize) -> usize
    ensures after { min from (length text.now) ≤ result }
    ensures within { result ≤ length text.now }
    ensures stopped { result < length text.now → kind (slice_index text.now result) ≢ Separator }
    ensures passed { (k : ℕ) → from + k < result → kind (slice_index text.now (from + k)) ≡ Separator }
{
    first_from(text, from, |b| Kind::from(b) != Kind::Separator)
}

/// The first place from `from` on that holds a line feed, or the end of the text.
pub fn first_line_feed(text: &[u8], from: usize) -> usize
    ensures after { min from (length text.now) ≤ result }
    ensures within { result ≤ length text.now }
    ensures stopped { result < length text.now → slice_index text.now result ≡ 10 }
    ensures passed { (k : ℕ) → from + k < result → slice_index text.now (from + k) ≢ 10 }
{
    first_from(text, from, |b| b == b'\n')
}
