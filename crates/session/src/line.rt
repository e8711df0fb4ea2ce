// The command lines after the first command, run on a desk: a calculator with all that it is lent.
ghost use Rattle.std.specs.Prelude.{◌≡◌, ℕ, ◌≤◌, List, [], ◌∷◌, ◌++◌, map, length, IfOk, Ok, OnOk};
ghost use Rattle.session.specs.Run.{Setting, printed};
ghost use Rattle.life.specs.Call.{event};
ghost use Rattle.life.specs.Call.Call.{write as writing};
ghost use Rattle.life.specs.View.{Stepped};
ghost use Rattle.calculator.specs.Seen.{view, text_outcome};
ghost use Rattle.calculator.specs.Kept.{Put};
ghost use Rattle.session.specs.Seen.{report_of, Into, LineDone, text_of, status_after};

use crate::failure::Failure;
use calculator::calculator::Calculator;
use calculator::register::RegisterNumber;
use command::files::Files;
use command::lines::{CommandLine, Lines};
use command::output::put_text;
use command::parse::{Command, parse_later};
use command::report::{Layer, RefusedLine};
use cube::notation::CubeNotation;
use cube::refusal::Refusal;
use std::alloc::{AllocError, Global};
use std::ops::ControlFlow;

/// The most bytes of a sheet that the console takes.
pub const MOST_SHEET_BYTES: usize = 8192;

// A refused line. A function, whose clause a proof can cite where a closure makes one.
pub(crate) fn refused_at(line: usize, layer: Layer, refusal: Refusal) -> RefusedLine
    ensures { result ≡ record { line = line; layer = layer; refusal = refusal } }
{
    RefusedLine {
        line,
        layer,
        refusal,
    }
}

// The text of a refused line.
pub(crate) fn told(heap: Global, refused: RefusedLine) -> Result<Vec<u8>, AllocError>
    ensures { IfOk result (λ bytes. bytes.items ≡ report_of refused) }
{
    Ok(format!(in heap; "{refused}")?.into_bytes())
}

/// Puts the text of a refused line into the bytes given.
pub fn refuse(heap: Global, refused: RefusedLine, out: &mut [u8]) -> Result<usize, Failure>
    ensures { Into (report_of refused) out.old result out.new }
{
    let text = told(heap, refused)?;
    Ok(put_text(&text, out)?)
}

// Appends what a line printed, or 8 where its text was longer than the bytes given.
// `put` tells how much of the page is filled: the page is lent, so its length stands beside it.
fn append(
    heap: Global,
    output: &mut Vec<u8>,
    line: usize,
    put: Result<usize, Failure>,
    page: &[u8],
) -> Result<(), AllocError>
    requires { IfOk put (λ size. size ≤ length page.now) }
    ensures { (at : Setting) (t before : List ℕ) → at.room ≡ length before → Into t before put page.now → OnOk result (output.new.items ≡ output.old.items ++ printed at line t) }
{
    match put {
        Ok(size) => output.extend_from_slice(&page[..size]),
        Err(Failure::Refused(_)) => {
            let too_long = refused_at(line, Layer::Calculator, Refusal::OutputTooShort);
            output.extend_from_slice(&told(heap, too_long)?)
        }
        Err(Failure::OutOfMemory) => Err(AllocError),
    }
}

// What is printed of a refused line alone, before there is a desk to hold the heap and the page.
pub(crate) fn print_refused(
    heap: Global,
    refused: RefusedLine,
    page: &mut [u8],
) -> Result<Vec<u8>, AllocError>
    ensures { (at : Setting) → at.room ≡ length page.old → IfOk result (λ output. output.items ≡ printed at refused.line (report_of refused)) }
{
    let mut output = Vec::new(heap);
    let put = refuse(heap, refused, page);
    append(heap, &mut output, refused.line, put, page)?;
    Ok(output)
}

// Writes register k as a sheet. A function: the proof has no rule for lending one field of a desk as `&` and others as `&mut`.
fn write<C: CubeNotation>(
    calculator: &mut Calculator,
    k: RegisterNumber,
    table: &mut [C],
    page: &mut [u8],
) -> Result<usize, Refusal>
    ensures step { Stepped (view calculator.old (map C.slots table.old)) (event (writing k.number.value (length page.old)) 0 (text_outcome result page.new)) (view calculator.old (map C.slots table.old)) }
    ensures kept { Put result calculator.old page.old calculator.new page.new }
    ensures same { view calculator.new (map C.slots table.new) ≡ view calculator.old (map C.slots table.old) }
{
    calculator.write(k, table, page)
}

/// A calculator at work: the files of its registers, the tables that it is lent, and the bytes for the text of a line.
// Slices: the host lends the tables and the page, by a rule of the project.
#[derive(Drop)]
pub struct Desk<'a, C> {
    pub heap: Global,
    pub calculator: &'a mut Calculator,
    pub files: &'a Files,
    pub table: &'a mut [C],
    pub working: &'a mut [C],
    pub page: &'a mut [u8],
}

impl<C: CubeNotation> Desk<'_, C> {
    ghost use Rattle.std.specs.declared.ops.ControlFlow.TheVariants.{Continue};
    ghost use Rattle.cube.specs.Slots.{Cover};
    ghost use Rattle.command.specs.Asked.{asked};
    ghost use Rattle.command.specs.Asked.Asked.{read, print};
    ghost use Rattle.command.specs.Cut.{line_of, lines_left};
    ghost use Rattle.command.specs.Report.{layer_of};
    ghost use Rattle.cube.specs.Refusals.{fault_of};
    ghost use Rattle.session.specs.Run.Status.{running};
    ghost use Rattle.session.specs.Desk.{LaterAsks, RanOn, IsKept, setting_at, seen};
    ghost use Rattle.session.specs.Midway.{Midway, Finished};
    ghost use Rattle.command.specs.Lines.{Line};

    // Reads the file of register k; one that is too large for the console is no sheet.
    fn read_register(&mut self, k: RegisterNumber, line: CommandLine) -> Result<(), RefusedLine>
        ensures done { (cells : Cover) → LaterAsks line.entry (read k.number.value) → LineDone (setting_at cells self.old) (running (seen C.slots self.old)) (line_of line.entry) (running (seen C.slots self.new)) (text_of result) }
        ensures page { self.new.page.now ≡ self.old.page.now }
        ensures kept { IsKept self.old self.new }
    {
        let Some(bytes) = self.files.sheet(k) else {
            return Err(refused_at(line.number, Layer::Command, Refusal::NoSuchFile));
        };
        if bytes.len() > MOST_SHEET_BYTES {
            return Err(refused_at(line.number, Layer::Sheet, Refusal::TextTooLong));
        }
        self.calculator
            .read(k, bytes, self.table, self.working)
            .map_err(
                move |refusal|
                    ensures { result ≡ record { line = line.number; layer = layer_of (fault_of refusal); refusal = refusal } }
                { refused_at(line.number, Layer::of_call(refusal), refusal) },
            )
    }

    // Prints register k as a sheet.
    fn print_register(&mut self, k: RegisterNumber, line: CommandLine) -> Result<usize, Failure>
        ensures ran { LaterAsks line.entry (print k.number.value) → RanOn C.slots self.old line.entry (Continue result) self.new }
        ensures kept { IsKept self.old self.new }
    {
        match write(self.calculator, k, self.table, self.page) {
            Ok(length) => Ok(length),
            Err(refusal) if refusal == Refusal::OutputTooShort => Err(Failure::Refused(refusal)),
            Err(refusal) => {
                let refused = refused_at(line.number, Layer::of_call(refusal), refusal);
                refuse(self.heap, refused, self.page)
            }
        }
    }

    // Does what a line asks, once it has been parsed.
    fn run_command(
        &mut self,
        command: Command,
        line: CommandLine,
    ) -> ControlFlow<(), Result<usize, Failure>>
        ensures ran { LaterAsks line.entry (asked command) → RanOn C.slots self.old line.entry result self.new }
        ensures kept { IsKept self.old self.new }
    {
        match command {
            Command::Read { register } => match self.read_register(register, line) {
                Ok(()) => ControlFlow::Continue(Ok(0)),
                Err(refused) => ControlFlow::Continue(refuse(self.heap, refused, self.page)),
            },
            Command::Print { register } => {
                let put = self.print_register(register, line);
                ControlFlow::Continue(put)
            }
            Command::Quit => ControlFlow::Break(()),
        }
    }

    /// Runs one line after the first command, and puts what it prints into the page; a `Break` ends the run.
    pub fn run_line(&mut self, line: CommandLine) -> ControlFlow<(), Result<usize, Failure>>
        ensures ran { RanOn C.slots self.old line.entry result self.new }
        ensures kept { IsKept self.old self.new }
    {
        let asked = match parse_later(line) {
            Ok(asked) => asked,
            Err(refusal) => {
                let refused = refused_at(line.number, Layer::Command, refusal);
                return ControlFlow::Continue(refuse(self.heap, refused, self.page));
            }
        };
        // The proof has no rule for the pattern `Ok(Some(command))`, since a command holds a ghost field.
        let Some(command) = asked else {
            return ControlFlow::Continue(Ok(0));
        };
        self.run_command(command, line)
    }

    // Runs one line, appends what it printed, and tells whether the run goes on.
    fn run_and_print(
        &mut self,
        line: CommandLine,
        output: &mut Vec<u8>,
    ) -> Result<ControlFlow<()>, AllocError>
        ensures ran { (cells : Cover) (ls rest : List Line) → Midway (setting_at cells self.old) ls (line_of line.entry ∷ rest) (running (seen C.slots self.old)) output.old.items → IfOk result (λ flow. Midway (setting_at cells self.old) ls rest (status_after flow (seen C.slots self.new)) output.new.items) }
        ensures kept { IsKept self.old self.new }
    {
        match self.run_line(line) {
            ControlFlow::Continue(put) => {
                append(self.heap, output, line.number, put, self.page)?;
                Ok(ControlFlow::Continue(()))
            }
            ControlFlow::Break(()) => Ok(ControlFlow::Break(())),
        }
    }

    // The lines after the first command.
    pub(crate) fn run_lines(&mut self, lines: Lines) -> Result<Vec<u8>, AllocError>
        ensures ran { (cells : Cover) (ls : List Line) → Midway (setting_at cells self.old) ls (lines_left lines.entry) (running (seen C.slots self.old)) [] → IfOk result (λ output. Finished (setting_at cells self.old) ls self.new.calculator.now (map C.slots self.new.table.now) output.items) }
        ensures kept { IsKept self.old self.new }
    {
        let mut output = Vec::new(self.heap);
        for line in lines {
            if self.run_and_print(line, &mut output)?.is_break() {
                break;
            }
        }
        Ok(output)
    }
}
