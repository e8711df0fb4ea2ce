// The records of the 32 registers: within the calculator, so that no host changes a count behind it.
ghost use Rattle.std.specs.Prelude.{◌≡◌, replicate, slice_index_or, slice_set};
ghost use Rattle.life.specs.View.{of_count};
ghost use Rattle.calculator.specs.Records.{registers_of};

use crate::register::RegisterNumber;

/// How many registers a calculator has; clauses say 32, as the definitions do.
pub const REGISTERS: usize = 32;

/// What a calculator keeps of one register.
#[derive(Clone, Copy)]
pub struct Record {
    count: u16,
}

impl Record {
    /// The record of a register that holds no cube.
    pub fn empty() -> Record
        ensures { result.count ≡ 0 }
    {
        Record { count: 0 }
    }

    /// The register holds so many cubes from now on.
    pub fn hold(&mut self, count: u16)
        ensures { self.new.count ≡ count }
    {
        self.count = count;
    }

    pub fn count(self) -> u16
        ensures { result ≡ self.count }
    {
        self.count
    }
}

/// The records of the 32 registers.
// An array, since the library has no heap; the cubes stand in a table that the host lends at each call.
#[derive(Clone, Copy)]
pub struct Registers {
    records: [Record; REGISTERS],
}

impl Registers {
    pub fn new() -> Registers
        ensures { registers_of result ≡ replicate 32 (of_count 0) }
    {
        Registers {
            records: [Record::empty(); REGISTERS],
        }
    }

    /// How many cubes register k holds.
    pub fn count(&self, k: RegisterNumber) -> u16
        ensures { result ≡ (slice_index_or (registers_of self.now) k.number.value (of_count 0)).count }
    {
        self.records[usize::from(k)].count()
    }

    /// Register k holds so many cubes from now on.
    pub fn hold(&mut self, k: RegisterNumber, count: u16)
        ensures records { registers_of self.new ≡ slice_set (registers_of self.old) k.number.value (of_count count) }
        ensures held { slice_index_or (registers_of self.new) k.number.value (of_count 0) ≡ of_count count }
    {
        self.records[usize::from(k)].hold(count);
    }
}
