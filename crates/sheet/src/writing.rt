// A sheet is written by one traversal, called twice: for the length first, and then over the lent bytes.
// `Display` does not serve: what std's formatting promises of a failed write is not enough to say when a sheet is refused.
ghost use Rattle.std.specs.Prelude.{◌≡◌, map, length, take};
ghost use Rattle.cube.specs.Slots.{blank_above};
ghost use Rattle.text.specs.Output.{Lays, Overlaid};
ghost use Rattle.sheet.specs.Writing.{blanked, filled, write_literal, write_literals, write_cube, write_cubes, write_sheet, Writes, Exact};
ghost use Rattle.sheet.specs.Trip.{Wrote, Returns};

use crate::reading::MOST_BYTES;
use cube::notation::CubeNotation;
use cube::refusal::Refusal;
use cube::shape::Shape;
use cube::slot::Slot;
use cube::variable::VariableNumber;
use text::output::Writer;

fn put_literal(variable: u8, slot: Slot, writer: &mut Writer)
    ensures { Lays writer.old (write_literal variable slot) writer.new }
{
    match slot {
        Slot::No => {
            writer.put(b' ');
            writer.put(b'-');
            writer.put_number(variable);
        }
        Slot::Yes => {
            writer.put(b' ');
            writer.put_number(variable);
        }
        Slot::Blank => {}
    }
}

// How many slots of the shape's variables are not Blank.
fn count_literals<C: CubeNotation>(shape: Shape, cube: C) -> usize
    ensures { result ≡ filled (take shape.variables.value (C.slots cube)) }
{
    // A loop, since the proof of `filter` and `count` over the numbers did not close.
    let mut count = 0;
    for v in 1..=shape.variables() {
        if cube.slot(VariableNumber::nearest(u32::from(v))) != Slot::Blank {
            count += 1;
        }
    }
    count
}

// The literals of the shape's variables, in a second walk: a cube's line begins with how many there are.
// Shape, cube and writer stay parameters, here and below: as fields of a struct each contract would name them longer.
fn put_literals<C: CubeNotation>(shape: Shape, cube: C, writer: &mut Writer)
    ensures { Lays writer.old (write_literals 1 (take shape.variables.value (C.slots cube))) writer.new }
{
    for variable in 1..=shape.variables() {
        let slot = cube.slot(VariableNumber::nearest(u32::from(variable)));
        put_literal(variable, slot, writer);
    }
}

// The line of a cube, with the slots above the shape's variables taken as Blank.
fn put_cube<C: CubeNotation>(shape: Shape, cube: C, writer: &mut Writer)
    ensures { Lays writer.old (write_cube (blank_above shape.variables.value (C.slots cube))) writer.new }
{
    writer.put_number(count_literals(shape, cube));
    put_literals(shape, cube, writer);
    writer.put(b'\n');
}

fn put_cubes<C: CubeNotation>(shape: Shape, cubes: &[C], writer: &mut Writer)
    ensures { Lays writer.old (write_cubes (blanked shape.variables.value C.slots cubes.now)) writer.new }
{
    for cube in cubes {
        put_cube(shape, *cube, writer);
    }
}

// Lays the sheet over `out` as far as this goes, and returns how long it is.
fn put_sheet<C: CubeNotation>(shape: Shape, cubes: &[C], out: &mut [u8]) -> usize
    ensures { Overlaid out.old 0 (write_sheet shape.variables.value (blanked shape.variables.value C.slots cubes.now)) result out.new }
{
    let mut sheet = Writer::new(out);
    sheet.put_number(shape.variables());
    sheet.put(b'\n');
    sheet.put_number(cubes.len());
    sheet.put(b'\n');
    put_cubes(shape, cubes, &mut sheet);
    sheet.end()
}

/// The text of a sheet of these cubes, with the slots above the shape's variables taken as Blank, at the front of `out`.
pub fn write_sheet<C: CubeNotation>(
    shape: Shape,
    cubes: &[C],
    out: &mut [u8],
) -> Result<usize, Refusal>
    ensures result { Writes (write_sheet shape.variables.value (blanked shape.variables.value C.slots cubes.now)) out.old result out.new }
    ensures exact { Exact (length cubes.now) (write_sheet shape.variables.value (blanked shape.variables.value C.slots cubes.now)) out.old result }
    ensures sheet { Wrote shape.variables.value (blanked shape.variables.value C.slots cubes.now) result out.new }
    ensures reads_back { Returns shape.variables.value (blanked shape.variables.value C.slots cubes.now) result out.new }
{
    // A sheet has more bytes than cubes: told before the walk, so that a long list costs nothing.
    if cubes.len() > MOST_BYTES {
        return Err(Refusal::OutputTooShort);
    }
    let length = put_sheet(shape, cubes, &mut []);
    if length > out.len() || length > MOST_BYTES {
        return Err(Refusal::OutputTooShort);
    }
    Ok(put_sheet(shape, cubes, out))
}
