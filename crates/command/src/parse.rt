// A command line as a value: a letter, and the numbers after it.
ghost use Rattle.std.specs.Prelude.{◌≡◌, ◌≤◌, Bool, true, false, length};
ghost use Rattle.text.specs.Tokens.{tokens_from};
ghost use Rattle.command.specs.Asked.{Admits, Asked, Asks, admitted, answered, asked, asked_by, first_parsed, numbers_in, parsed, parsed_as};
ghost use Rattle.command.specs.Counted.{first_two, two_held};
ghost use Rattle.command.specs.Cut.{line_asks};

use crate::lines::CommandLine;
use arrayvec::ArrayVec;
use calculator::register::RegisterNumber;
use cube::refusal::Refusal;
use text::scan::past_separators;
use text::tokens::{Token, Tokens};

/// What a line after the first command asks of the console.
#[derive(Clone, Copy, PartialEq, Eq, Debug)]
pub enum Command {
    Read { register: RegisterNumber },
    Print { register: RegisterNumber },
    Quit,
}

// The first two numbers from a place on, one more than a command takes; the first fault in the line refuses it.
fn numbers_from(text: &[u8], start: usize) -> Result<ArrayVec<i32, 2>, Refusal>
    requires { start ≤ length text.now }
    ensures { two_held result ≡ first_two (numbers_in (tokens_from text.now start)) }
{
    let mut numbers = ArrayVec::new();
    for token in Tokens::starting_at(text, start) {
        if let Token::Number { numeral, .. } = token? {
            let _ = numbers.try_push(numeral.value());
        }
    }
    Ok(numbers)
}

// Parses a line: `admits` tells which letters may begin it, and `ask` what a letter asks with the first two numbers after it.
fn parse_as<T, A: FnOnce(char) -> bool, F: FnOnce(char, &[i32]) -> Result<T, Refusal>>(
    line: CommandLine,
    admits: A,
    ask: F,
) -> Result<Option<T>, Refusal>
    requires admits { A.IsAlwaysCallable admits }
    requires asks { F.IsAlwaysCallable ask }
    ensures { (first : Bool) (see : T → Asked) → Admits A.post admits first → Asks F.post ask first see → parsed_as see result ≡ line_asks first line.entry }
{
    let text = line.text;
    let at = past_separators(text, line.start);
    match &text[at..] {
        [] => Ok(None),
        [letter, rest @ ..] => {
            let letter = char::from(*letter);
            if !admits(letter) {
                return Err(Refusal::NoSuchCommand { at });
            }
            let numbers = numbers_from(text, text.len() - rest.len())?;
            Ok(Some(ask(letter, numbers.as_slice())?))
        }
    }
}

/// The number that the first command asks for; nothing where the line has separators alone.
pub fn parse_first(line: CommandLine) -> Result<Option<i32>, Refusal>
    ensures { first_parsed result ≡ line_asks true line.entry }
{
    parse_as(
        line,
        |letter| matches!(letter, 'v'),
        |_, numbers| match numbers {
            [variables] => Ok(*variables),
            _ => Err(Refusal::WrongNumberCount),
        },
    )
}

// What a letter that may begin a later command asks with these numbers.
fn command_of(letter: char, numbers: &[i32]) -> Result<Command, Refusal>
    ensures { admitted false letter ≡ true → answered asked result ≡ asked_by letter numbers.now }
{
    match (letter, numbers) {
        ('r', [register]) => Ok(Command::Read {
            register: RegisterNumber::try_from(*register)?,
        }),
        ('p', [register]) => Ok(Command::Print {
            register: RegisterNumber::try_from(*register)?,
        }),
        ('q', []) => Ok(Command::Quit),
        _ => Err(Refusal::WrongNumberCount),
    }
}

/// What a line after the first command asks; nothing where it has separators alone.
pub fn parse_later(line: CommandLine) -> Result<Option<Command>, Refusal>
    ensures { parsed result ≡ line_asks false line.entry }
{
    parse_as(
        line,
        |letter|
            ensures { result ≡ admitted false letter }
        { matches!(letter, 'r' | 'p' | 'q') },
        command_of,
    )
}
