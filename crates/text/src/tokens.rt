// The tokens of a text, one after another, each a part of the text.
ghost use Rattle.std.specs.Prelude.{◌≡◌, ℕ, ◌+◌, ◌-◌, ◌<◌, ◌≤◌, min, length, drop, MatchResult, ◌≢◌, slice_index};
ghost use Rattle.text.specs.Bytes.{kind};
ghost use Rattle.text.specs.Tokens.{stream, digits, span, num, Step, Faulty};
ghost use Rattle.text.specs.Scanning.{Opens, Closes};
ghost use Rattle.text.specs.declared.bytes.Kind.TheVariants.{Separator, LineFeed, Digit};

use crate::bytes::Kind;
use crate::numeral::Numeral;
use crate::scan::{first_from, past_separators};
use cube::refusal::Refusal;

const MOST_DIGITS: usize = 5;

/// A number and the offset of its first byte, or the offset of a line feed.
#[derive(Clone, Copy)]
pub enum Token<'a> {
    Number { numeral: Numeral<'a>, at: usize },
    LineEnd { at: usize },
}

// The first place from `from` on that holds no digit.
fn past_digits(text: &[u8], from: usize) -> usize
    requires { from ≤ length text.now }
    ensures after { from ≤ result }
    ensures within { result ≤ length text.now }
    ensures stops { result < length text.now → kind (slice_index text.now result) ≢ Digit }
    ensures same { (start first : ℕ) → start ≤ from → stream (digits start first (span text.now start from)) from (drop from text.now) ≡ stream (digits start first (span text.now start result)) result (drop result text.now) }
{
    first_from(text, from, |b| Kind::from(b) != Kind::Digit)
}

// The place of the first digit of the number that begins at `start`.
#[tactic(auto, using(crate::proofs::Streams::opens_digit, crate::proofs::Streams::opens_minus, crate::proofs::Streams::lone_minus, crate::proofs::Streams::stray))]
fn first_digit(text: &[u8], start: usize) -> Result<usize, Refusal>
    requires inside { start < length text.now }
    requires word { kind (slice_index text.now start) ≢ Separator }
    requires line { kind (slice_index text.now start) ≢ LineFeed }
    ensures { MatchResult result (λ first. Opens text.now start first) (λ f. Faulty text.now start f) }
{
    match Kind::from(text[start]) {
        Kind::Digit => Ok(start),
        Kind::Minus => {
            let next = text.get(start + 1).map(|b| Kind::from(*b));
            if next == Some(Kind::Digit) {
                Ok(start + 1)
            } else {
                Err(Refusal::MinusWithoutDigit { at: start })
            }
        }
        _ => Err(Refusal::ByteNotAllowed { at: start }),
    }
}

// The end of the number that begins at `start`, with its first digit at `first`.
#[tactic(auto, using(crate::proofs::Streams::stray_after, crate::proofs::Streams::sixth_digit, crate::proofs::Streams::closes))]
fn number_end(text: &[u8], start: usize, first: usize) -> Result<usize, Refusal>
    requires { Opens text.now start first }
    ensures { MatchResult result (λ end. Closes text.now start end) (λ f. Faulty text.now start f) }
{
    let end = past_digits(text, first + 1);
    match text.get(end).map(|b| Kind::from(*b)) {
        None | Some(Kind::Separator | Kind::LineFeed) => {}
        _ => return Err(Refusal::ByteNotAllowed { at: end }),
    }
    if end - first > MOST_DIGITS {
        return Err(Refusal::SixthDigit { at: start });
    }
    Ok(end)
}

// The number that begins at `start`, and where it ends.
fn number_at(text: &[u8], start: usize) -> Result<(Numeral<'_>, usize), Refusal>
    requires inside { start < length text.now }
    requires word { kind (slice_index text.now start) ≢ Separator }
    requires line { kind (slice_index text.now start) ≢ LineFeed }
    ensures { MatchResult result (λ p. Step text.now start (num p.0.text.now start) p.1) (λ f. Faulty text.now start f) }
{
    let first = first_digit(text, start)?;
    let end = number_end(text, start, first)?;
    let numeral = Numeral {
        text: &text[start..end],
    };
    Ok((numeral, end))
}

/// A place in a text, from which on the text's tokens are read.
#[derive(Drop)]
pub struct Tokens<'a> {
    text: &'a [u8],
    place: usize,
    ghost within: { place ≤ length text.now },
}

impl<'a> Tokens<'a> {
    pub fn new(text: &'a [u8]) -> Self
        ensures { (result.text.now ≡ text.now) × (result.place ≡ 0) }
    {
        Tokens { text, place: 0 }
    }

    /// From this place on, or from the end where that is beyond it; offsets count in the whole text.
    pub fn starting_at(text: &'a [u8], place: usize) -> Self
        ensures { (result.text.now ≡ text.now) × (result.place ≡ min place (length text.now)) }
    {
        Tokens {
            text,
            place: place.min(text.len()),
        }
    }
}

/// The tokens, or the first fault, after which none comes.
impl<'a> Iterator for Tokens<'a> {
    ghost use Rattle.text.specs.Reader.{Gives, bytes_left};

    type Item = Result<Token<'a>, Refusal>;

    ghost next_gives = { Gives };

    ghost remaining = { bytes_left };

    #[tactic(auto, using(crate::proofs::Streams::ended))]
    fn next(&mut self) -> Option<Result<Token<'a>, Refusal>> {
        let text = self.text;
        let start = past_separators(text, self.place);
        if start == text.len() {
            self.place = start;
            return None;
        }
        // Answered here and not by a function for every token, so that an empty line costs no more than its one byte.
        if Kind::from(text[start]) == Kind::LineFeed {
            self.place = start + 1;
            return Some(Ok(Token::LineEnd { at: start }));
        }
        match number_at(text, start) {
            Ok((numeral, end)) => {
                self.place = end;
                Some(Ok(Token::Number { numeral, at: start }))
            }
            Err(refusal) => {
                self.place = text.len();
                Some(Err(refusal))
            }
        }
    }
}
