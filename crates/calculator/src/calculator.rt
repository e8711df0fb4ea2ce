// The calculator as a value, and what it can be asked. Each contract has the exact step, what stays the same value, and the law of lives.
ghost use Rattle.std.specs.Prelude.{◌≡◌, ℕ, ◌+◌, ◌*◌, ◌<◌, ◌≤◌, List, [], ◌∷◌, ◌++◌, map, length, take, drop, slice_set, slice_index_or};
ghost use Rattle.cube.specs.Slots.{Cube};
ghost use Rattle.life.specs.View.{of_count};
ghost use Rattle.calculator.specs.Records.{registers_of};

use crate::register::RegisterNumber;
use crate::registers::{REGISTERS, Registers};
use cube::notation::CubeNotation;
use cube::refusal::Refusal;
use cube::shape::Shape;
use sheet::reading::read_sheet;
use sheet::writing::write_sheet;

/// It cannot be copied, so each call goes on from the one before.
#[derive(Drop)]
pub struct Calculator {
    shape: Shape,
    registers: Registers,
    ghost within: { (k : ℕ) → (slice_index_or (registers_of registers) k (of_count 0)).count ≤ shape.places.value },
}

// The tables are slices that the host lends at each call, by a rule of the project: the library has no heap, and a calculator keeps no table.
impl Calculator {
    ghost use Rattle.life.specs.Call.{event};
    ghost use Rattle.life.specs.Call.Call.{read as reading, write as writing};
    ghost use Rattle.life.specs.Call.Source.{sheet as sheet_of};
    ghost use Rattle.life.specs.View.{New, written};
    ghost use Rattle.life.specs.History.{Lived};
    ghost use Rattle.life.specs.Law.{Law, LivesOn};
    ghost use Rattle.calculator.specs.Seen.{view, done_outcome, text_outcome};
    ghost use Rattle.calculator.specs.Kept.{Fills, Put, count_of};

    /// A calculator of this shape, with the empty cover in every register, for any register table.
    pub fn new(shape: Shape) -> Calculator
        ensures made { (result.shape ≡ shape) × ((cells : List Cube) → New (view result cells)) }
        ensures lives { (cells : List Cube) → Lived (view result cells) [] × Law (view result cells) [] }
    {
        Calculator {
            shape,
            registers: Registers::new(),
        }
    }

    /// Reads a sheet into register k.
    pub fn read<C: CubeNotation>(
        &mut self,
        k: RegisterNumber,
        text: &[u8],
        table: &mut [C],
        working: &mut [C],
    ) -> Result<(), Refusal>
        ensures lives { LivesOn (view self.old (map C.slots table.old))
            (event (reading k.number.value (sheet_of text.now)) (length working.old) (done_outcome result))
            (view self.new (map C.slots table.new)) }
        ensures kept { Fills k.number.value result self.old table.old self.new table.new }
    {
        let places = usize::from(self.shape.places());
        if table.len() < REGISTERS * places || working.len() < 2 * REGISTERS * places {
            return Err(Refusal::TableTooShort);
        }
        let count = read_sheet(self.shape, text, working)?;
        self.fill(k, count, table, working);
        Ok(())
    }

    /// Writes register a as a sheet.
    // It changes nothing; by a rule of the project each call is a method on `&mut self`, so that the calls of a life have one order.
    pub fn write<C: CubeNotation>(
        &mut self,
        a: RegisterNumber,
        table: &[C],
        out: &mut [u8],
    ) -> Result<usize, Refusal>
        ensures lives { LivesOn (view self.old (map C.slots table.now))
            (event (writing a.number.value (length out.old)) 0 (text_outcome result out.new))
            (view self.new (map C.slots table.now)) }
        ensures kept { Put result self.old out.old self.new out.new }
    {
        if table.len() < REGISTERS * usize::from(self.shape.places()) {
            return Err(Refusal::TableTooShort);
        }
        let start = self.first_place(a);
        let count = usize::from(self.registers.count(a));
        write_sheet(self.shape, &table[start..start + count], out)
    }

    // The first place of register k: the places of a register stand together, those of register 0 first.
    fn first_place(&self, k: RegisterNumber) -> usize
        ensures { result ≡ k.number.value * self.now.shape.places.value }
    {
        usize::from(k) * usize::from(self.shape.places())
    }

    // Register k takes over the first `count` cubes of the working table.
    fn fill<C: CubeNotation>(
        &mut self,
        k: RegisterNumber,
        count: usize,
        table: &mut [C],
        working: &[C],
    )
        requires few { count ≤ self.old.shape.places.value }
        requires roomy { 32 * self.old.shape.places.value ≤ length table.old }
        requires enough { count ≤ length working.now }
        ensures shape { self.new.shape ≡ self.old.shape }
        ensures cells { table.new ≡ written table.old (k.number.value * self.old.shape.places.value) (take count working.now) }
        ensures held { count_of self.new k.number.value ≡ count }
        ensures records { registers_of self.new.registers ≡ slice_set (registers_of self.old.registers) k.number.value (of_count count) }
    {
        let start = self.first_place(k);
        table[start..start + count].copy_from_slice(&working[..count]);
        self.registers.hold(k, count as u16);
    }
}
