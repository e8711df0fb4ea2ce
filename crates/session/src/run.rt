// A whole command text, run line by line.
ghost use Rattle.std.specs.Prelude.{◌≡◌, ℕ, ◌<◌, ◌≤◌, List, [], ◌∷◌, ◌++◌, map, length, IfOk, Some, None, Ok, OnOk};
ghost use Rattle.command.specs.Cut.{line_of, lines_left};
ghost use Rattle.command.specs.Lines.{Line};
ghost use Rattle.session.specs.Run.{Setting, printed};
ghost use Rattle.session.specs.Run.Status.{waiting};
ghost use Rattle.session.specs.Seen.{report_of, Into, setting};
ghost use Rattle.session.specs.Midway.{Midway, Begins, Opens, Finished};
ghost use Rattle.session.specs.Ran.{TextRan, TextRefused};

use crate::failure::Failure;
use crate::line::{Desk, print_refused, refused_at, told};
use calculator::calculator::Calculator;
use command::files::Files;
use command::lines::{CommandLine, Lines};
use command::parse::parse_first;
use command::report::{Layer, RefusedLine};
use cube::notation::CubeNotation;
use cube::refusal::Refusal;
use cube::shape::Shape;
use std::alloc::{AllocError, Global};
use std::ops::ControlFlow;

/// The most bytes of a command text.
pub const MOST_COMMAND_BYTES: usize = 4096;

/// The places of each register of the console's calculator.
pub const PLACES: i32 = 64;

// What is refused where a whole text is too long.
const TOO_LONG: RefusedLine = RefusedLine {
    line: 0,
    layer: Layer::Command,
    refusal: Refusal::TextTooLong,
};

/// What a run leaves: all that it printed, and its calculator, if it made one.
#[derive(Drop)]
pub struct Run {
    pub output: Vec<u8>,
    pub calculator: Option<Calculator>,
}

impl Run {
    // What is left where no calculator was made.
    fn without_calculator(output: Vec<u8>) -> Run
        ensures { result ≡ record { output = output; calculator = None } }
    {
        Run {
            output,
            calculator: None,
        }
    }
}

// What a line makes where no command came before it; nothing if it has separators alone.
fn begin(line: CommandLine) -> Result<Option<Calculator>, RefusedLine>
    ensures { (at : Setting) (ls rest : List Line) → Midway at ls (line_of line.entry ∷ rest) waiting [] → Begins at ls result rest }
{
    // Two matches: of a closure under `map_err` a proof knows what an `ensures` of its own says, which is longer than these arms.
    let variables = match parse_first(line) {
        Ok(Some(variables)) => variables,
        Ok(None) => return Ok(None),
        Err(refusal) => return Err(refused_at(line.number, Layer::Command, refusal)),
    };
    match Shape::new(variables, PLACES) {
        Ok(shape) => Ok(Some(Calculator::new(shape))),
        Err(refusal) => Err(refused_at(line.number, Layer::Calculator, refusal)),
    }
}

// Lines of separators alone may come before the first command.
fn open(lines: &mut Lines) -> Result<Option<Calculator>, RefusedLine>
    ensures { (at : Setting) → Opens at (lines_left lines.old) result (lines_left lines.new) }
{
    // A `for` over the `&mut` leaves unknown, in proofs, which lines are left after it.
    while let Some(line) = lines.next() {
        if let Some(calculator) = begin(line)? {
            return Ok(Some(calculator));
        }
    }
    Ok(None)
}

/// Runs a command text; each line's text is put into `page` first.
pub fn run_text<C: CubeNotation>(
    heap: Global,
    text: &[u8],
    files: &Files,
    table: &mut [C],
    working: &mut [C],
    page: &mut [u8],
) -> Result<Run, AllocError>
    ensures short { length text.now ≤ 4096 → IfOk result (λ run. TextRan (setting files.now (map C.slots table.old) (length working.old) (length page.old)) text.now run (map C.slots table.new)) }
    ensures long { 4096 < length text.now → IfOk result (λ run. TextRefused run) × (table.new ≡ table.old) }
{
    if text.len() > MOST_COMMAND_BYTES {
        return Ok(Run::without_calculator(told(heap, TOO_LONG)?));
    }
    let mut lines = Lines::new(text);
    let mut calculator = match open(&mut lines) {
        Ok(Some(calculator)) => calculator,
        Ok(None) => return Ok(Run::without_calculator(Vec::new(heap))),
        Err(refused) => return Ok(Run::without_calculator(print_refused(heap, refused, page)?)),
    };
    let mut desk = Desk {
        heap,
        calculator: &mut calculator,
        files,
        table,
        working,
        page,
    };
    let output = desk.run_lines(lines)?;
    Ok(Run {
        output,
        calculator: Some(calculator),
    })
}
