// A command text as lines.
ghost use Rattle.std.specs.Prelude.{◌≡◌, ◌+◌, ◌<◌, ◌≤◌, [], min, length, take, drop, slice_index};
ghost use Rattle.std.specs.Option.{ForSome};
ghost use Rattle.text.specs.Words.{split, feed};

use text::scan::first_line_feed;

/// One line: the text up to its end, so that offsets count in the whole text, where it starts, and its number from 1.
#[derive(Clone, Copy)]
pub struct CommandLine<'a> {
    pub text: &'a [u8],
    pub start: usize,
    pub number: usize,
}

/// The lines that are left of a text: where the next starts, if there is one, and its number.
#[derive(Drop)]
pub struct Lines<'a> {
    text: &'a [u8],
    start: Option<usize>,
    number: usize,
    ghost within: { ForSome start (λ at. at ≤ length text.now) },
    ghost few: { ForSome start (λ at. number ≤ at + 1) },
}

impl<'a> Lines<'a> {
    ghost use Rattle.command.specs.Lines.{lines_of};
    ghost use Rattle.command.specs.Cut.{lines_left};

    pub fn new(text: &'a [u8]) -> Self
        ensures { lines_left result ≡ lines_of text.now }
    {
        Lines {
            text,
            start: Some(0),
            number: 1,
        }
    }
}

// The place of the first line feed from `from` on, or the end of the text.
#[tactic(auto, using(crate::proofs::Splits::up_to_feed))]
fn line_end(text: &[u8], from: usize) -> usize
    ensures after { min from (length text.now) ≤ result }
    ensures within { result ≤ length text.now }
    ensures stops { result < length text.now → slice_index text.now result ≡ 10 }
    ensures same { split feed [] (drop from text.now) ≡ split feed (drop from (take result text.now)) (drop result text.now) }
{
    first_line_feed(text, from)
}

impl<'a> Iterator for Lines<'a> {
    ghost use Rattle.std.specs.Iterator.{YieldsFirstBy, item_count};
    ghost use Rattle.command.specs.Cut.{line_of, lines_left};

    type Item = CommandLine<'a>;

    ghost next_gives = { YieldsFirstBy line_of lines_left };

    ghost remaining = { item_count lines_left };

    fn next(&mut self) -> Option<CommandLine<'a>> {
        let start = self.start?;
        let text = self.text;
        let number = self.number;
        let end = line_end(text, start);
        if end < text.len() {
            self.start = Some(end + 1);
            self.number = number + 1;
        } else {
            self.start = None;
        }
        Some(CommandLine {
            text: &text[..end],
            start,
            number,
        })
    }
}
