// The line that is printed for a refusal.
ghost use Rattle.std.specs.Prelude.{◌≡◌, Some};
ghost use Rattle.cube.specs.Refusals.{fault_of};
ghost use Rattle.command.specs.Report.{layer_name, layer_of, report};

use cube::refusal::Refusal;
use std::fmt;

/// Who refused: the text of a sheet, a command, or a call of the calculator.
#[derive(Clone, Copy, PartialEq, Eq, Debug)]
pub enum Layer {
    Sheet,
    Command,
    Calculator,
}

impl Layer {
    /// The layer of a refused call: 20 to 36 are faults of its sheet.
    pub fn of_call(refusal: Refusal) -> Layer
        ensures { result ≡ layer_of (fault_of refusal) }
    {
        // Told by numbers, as docs/FORMATS.md tells it: eleven variants in a row would be no plainer.
        match refusal.number() {
            20..=36 => Layer::Sheet,
            _ => Layer::Calculator,
        }
    }
}

impl fmt::Display for Layer {
    ghost output = { λ l. Some (layer_name l) };

    fn fmt<W: fmt::Write>(&self, f: &mut fmt::Formatter<W>) -> fmt::Result {
        f.write_str(match self {
            Layer::Sheet => "sheet",
            Layer::Command => "command",
            Layer::Calculator => "calculator",
        })
    }
}

/// A refused line: its number from 1, or 0 for a whole text, who refused, and why.
#[derive(Clone, Copy, PartialEq, Eq, Debug)]
pub struct RefusedLine {
    pub line: usize,
    pub layer: Layer,
    pub refusal: Refusal,
}

impl fmt::Display for RefusedLine {
    ghost output = { λ x. Some (report x.line x.layer (fault_of x.refusal)) };

    #[tactic(auto, unfolding(crate::specs::Report::report))]
    fn fmt<W: fmt::Write>(&self, f: &mut fmt::Formatter<W>) -> fmt::Result {
        let RefusedLine {
            line,
            layer,
            refusal,
        } = *self;
        let (number, offset) = (refusal.number(), refusal.offset());
        writeln!(f, "line {line} {layer} {number} at {offset}")
    }
}
