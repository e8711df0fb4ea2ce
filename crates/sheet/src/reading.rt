// A sheet is read token by token, and its cubes are put at the front of a table.
ghost use Rattle.std.specs.Prelude.{◌≡◌, ℕ, ◌≤◌, true, cond, ◌||◌, nat_lt, map, length, take, drop, IfOk};
ghost use Rattle.cube.specs.Refusals.{told};
ghost use Rattle.text.specs.Numerals.{size_in, minus_in};
ghost use Rattle.text.specs.Tokens.{num, tok_of};
ghost use Rattle.sheet.specs.Reading.{step_of, act, complete_in, read_sheet, read_into, Reads};
ghost use Rattle.sheet.specs.Places.{counted, Ready, Within};
ghost use Rattle.sheet.specs.Sheet.{Accepts};

use cube::notation::CubeNotation;
use cube::refusal::Refusal;
use cube::shape::Shape;
use cube::slot::Slot;
use cube::variable::VariableNumber;
use text::numeral::Numeral;
use text::tokens::{Token, Tokens};

pub const MOST_BYTES: usize = 65535;

/// Where the reader is.
// Its counts are small and `usize` all the same: a state of words of one length is copied word by word at every token, and one of
// halves across them, at which the processor waits.
#[derive(Clone, Copy)]
pub enum ReaderState {
    BeforeLine1,
    // Whether line 1 has ended; a flag and no fourth variant, since a rule of the project gives the reader three states.
    BeforeLine2 { fresh: bool },
    // How many cubes are still to come, and the line, where a number has been met on it.
    AmongCubes { left: usize, line: Option<Literals> },
}

/// How many literals a line still owes, none on line 2, and the last of its variables so far.
#[derive(Clone, Copy)]
pub struct Literals {
    left: usize,
    last: usize,
}

/// What a token asks of the cubes that are read.
#[derive(Clone, Copy)]
pub enum Deed {
    Open,
    // The number alone, since the theorems speak of any number of variables, also above 20.
    Put { variable: u32, slot: Slot },
}

// The next state and what is asked of the cubes, or the fault.
type Step = Result<(ReaderState, Option<Deed>), Refusal>;

impl ReaderState {
    // Whether a text may end here.
    fn is_complete(self) -> bool
        ensures { result ≡ complete_in self }
    {
        match self {
            ReaderState::AmongCubes { left: 0, line } => line.is_none_or(|line| line.left == 0),
            _ => false,
        }
    }
}

fn step(shape: Shape, state: ReaderState, token: Token) -> Step
    ensures { told result ≡ step_of shape.variables.value shape.places.value state (tok_of token.entry) }
{
    match (state, token) {
        (ReaderState::BeforeLine1, Token::Number { numeral, at }) => on_line_1(shape, numeral, at),
        (ReaderState::BeforeLine1, Token::LineEnd { .. }) => Ok((state, None)),
        (ReaderState::BeforeLine2 { fresh: true }, Token::Number { numeral, at }) => {
            on_line_2(shape, numeral, at)
        }
        (ReaderState::BeforeLine2 { fresh: false }, Token::Number { at, .. }) => {
            Err(Refusal::NumberTooMany { at })
        }
        (ReaderState::BeforeLine2 { .. }, Token::LineEnd { .. }) => {
            Ok((ReaderState::BeforeLine2 { fresh: true }, None))
        }
        (ReaderState::AmongCubes { left, line }, Token::Number { numeral, at }) => match line {
            None => next_cube(shape, left, numeral, at),
            Some(line) => next_literal(shape, left, line, numeral, at),
        },
        (ReaderState::AmongCubes { left, line }, Token::LineEnd { at }) => {
            if line.is_some_and(|line| line.left > 0) {
                return Err(Refusal::EndsTooEarly { at });
            }
            Ok((ReaderState::AmongCubes { left, line: None }, None))
        }
    }
}

// Line 1 holds the number of variables.
// A numeral and its offset stay two parameters, here and below: as fields of a struct each contract would name them longer.
fn on_line_1(shape: Shape, numeral: Numeral, at: usize) -> Step
    ensures { told result ≡ step_of shape.variables.value shape.places.value ReaderState.BeforeLine1 (num numeral.entry.text.now at) }
{
    if numeral.value() != i32::from(shape.variables()) {
        return Err(Refusal::NotTheVariables { at });
    }
    Ok((ReaderState::BeforeLine2 { fresh: false }, None))
}

// The number, where it is one from 0 to `most`.
fn count_up_to(numeral: Numeral, most: u16) -> Option<usize>
    ensures { result ≡ cond (minus_in numeral.entry.text.now || nat_lt most (size_in numeral.entry.text.now)) None (Some (size_in numeral.entry.text.now)) }
{
    let count = usize::try_from(numeral.value()).ok()?;
    (count <= usize::from(most)).then_some(count)
}

// Line 2 holds the number of cubes.
fn on_line_2(shape: Shape, numeral: Numeral, at: usize) -> Step
    ensures { told result ≡ step_of shape.variables.value shape.places.value (ReaderState.BeforeLine2 true) (num numeral.entry.text.now at) }
{
    let left = count_up_to(numeral, shape.places()).ok_or(Refusal::CubesBeyondRange { at })?;
    let line = Some(Literals { left: 0, last: 0 });
    Ok((ReaderState::AmongCubes { left, line }, None))
}

// The line of a cube begins with how many literals it has.
fn next_cube(shape: Shape, left: usize, numeral: Numeral, at: usize) -> Step
    ensures { told result ≡ step_of shape.variables.value shape.places.value (ReaderState.AmongCubes left None) (num numeral.entry.text.now at) }
{
    let left = left.checked_sub(1).ok_or(Refusal::NumberTooMany { at })?;
    let most = u16::from(shape.variables());
    let literals = count_up_to(numeral, most).ok_or(Refusal::LiteralsBeyondRange { at })?;
    let line = Some(Literals {
        left: literals,
        last: 0,
    });
    Ok((ReaderState::AmongCubes { left, line }, Some(Deed::Open)))
}

fn next_literal(shape: Shape, left: usize, line: Literals, numeral: Numeral, at: usize) -> Step
    ensures { told result ≡ step_of shape.variables.value shape.places.value (ReaderState.AmongCubes left (Some line)) (num numeral.entry.text.now at) }
{
    if line.left == 0 {
        return Err(Refusal::NumberTooMany { at });
    }
    let literal = numeral.value();
    let variable = literal.unsigned_abs();
    if variable == 0 || variable > u32::from(shape.variables()) {
        return Err(Refusal::LiteralBeyondRange { at });
    }
    if variable as usize <= line.last {
        return Err(Refusal::LiteralNotRising { at });
    }
    let slot = if literal < 0 { Slot::No } else { Slot::Yes };
    let line = Some(Literals {
        left: line.left - 1,
        last: variable as usize,
    });
    Ok((
        ReaderState::AmongCubes { left, line },
        Some(Deed::Put { variable, slot }),
    ))
}

// Does to the first `count` cubes of `out` what is asked, and returns how many there then are.
// The project lends tables, so the cubes stand at the front of one with their number beside it.
fn perform<C: CubeNotation>(deed: Option<Deed>, out: &mut [C], count: usize) -> usize
    requires ready { Ready (length out.old) deed count }
    requires within { Within 20 deed }
    requires fits { count ≤ length out.old }
    ensures number { result ≡ counted deed count }
    ensures cubes { take result (map C.slots out.new) ≡ act deed (take count (map C.slots out.old)) }
    ensures kept { (most : ℕ) → Ready most deed count → drop most out.new ≡ drop most out.old }
{
    match deed {
        None => count,
        Some(Deed::Open) => {
            out[count] = C::blank();
            count + 1
        }
        Some(Deed::Put { variable, slot }) => {
            let cube = out[count - 1];
            out[count - 1] = cube.set(VariableNumber::nearest(variable), slot);
            count
        }
    }
}

fn read_within<C: CubeNotation>(shape: Shape, text: &[u8], out: &mut [C]) -> Result<usize, Refusal>
    requires { shape.places.value ≤ length out.old }
    ensures result { Reads (read_sheet shape.variables.value shape.places.value text.now) result (map C.slots out.new) }
    ensures within { IfOk result (λ k. k ≤ shape.places.value) }
    ensures kept { drop shape.places.value out.new ≡ drop shape.places.value out.old }
{
    if text.len() > MOST_BYTES {
        return Err(Refusal::TextTooLong);
    }
    let mut state = ReaderState::BeforeLine1;
    // How many cubes stand at the front of the lent table: there is no heap for a `Vec`.
    let mut count = 0;
    for token in Tokens::new(text) {
        let (next, deed) = step(shape, state, token?)?;
        count = perform(deed, out, count);
        state = next;
    }
    if !state.is_complete() {
        return Err(Refusal::EndsTooEarly { at: text.len() });
    }
    Ok(count)
}

/// The cubes of a sheet, at the front of `out`, and how many; past the places of the shape `out` keeps what it holds.
pub fn read_sheet<C: CubeNotation>(
    shape: Shape,
    text: &[u8],
    out: &mut [C],
) -> Result<usize, Refusal>
    ensures result { Reads (read_into shape.variables.value shape.places.value (length out.old) text.now) result (map C.slots out.new) }
    ensures accepted { Accepts shape.variables.value shape.places.value (length out.old) text.now result (map C.slots out.new) }
    ensures within { IfOk result (λ k. k ≤ shape.places.value) }
    ensures kept { drop shape.places.value out.new ≡ drop shape.places.value out.old }
{
    if out.len() < usize::from(shape.places()) {
        return Err(Refusal::TableTooShort);
    }
    read_within(shape, text, out)
}
