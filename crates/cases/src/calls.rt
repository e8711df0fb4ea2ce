// Calls with plain numbers, and texts that are too long to be written out.
use calculator::calculator::Calculator;
use calculator::register::RegisterNumber;
use cube::notation::CubeNotation;
use cube::refusal::Refusal;
use cube::shape::Shape;
use std::alloc::{AllocError, Global};

/// The tables that a host lends at each call.
#[derive(Drop)]
pub(crate) struct Tables<C> {
    pub(crate) registers: Vec<C>,
    pub(crate) working: Vec<C>,
}

impl<C: CubeNotation> Tables<C> {
    /// Tables of so many cubes and so much room, each place filled with the same cube.
    pub(crate) fn new(
        heap: Global,
        fill: C,
        cubes: usize,
        room: usize,
    ) -> Result<Self, AllocError> {
        Ok(Tables {
            registers: vec![in heap; fill; cubes]?,
            working: vec![in heap; fill; room]?,
        })
    }

    /// A new calculator of n variables and four places a register that has read a text into register k.
    pub(crate) fn read(&mut self, n: i32, k: i32, text: &[u8]) -> Result<Calculator, Refusal> {
        let mut calculator = Calculator::new(Shape::new(n, 4)?);
        let k = RegisterNumber::try_from(k)?;
        calculator.read(k, text, &mut self.registers, &mut self.working)?;
        Ok(calculator)
    }
}

/// The length of what a write of register k leaves in the bytes given.
pub(crate) fn write<C: CubeNotation>(
    calculator: &mut Calculator,
    k: i32,
    table: &[C],
    out: &mut [u8],
) -> Result<usize, Refusal> {
    calculator.write(RegisterNumber::try_from(k)?, table, out)
}

/// A text, and before it as many of a byte as make up a length.
pub(crate) fn padded(
    heap: Global,
    fill: u8,
    text: &[u8],
    length: usize,
) -> Result<Vec<u8>, AllocError> {
    let mut bytes = vec![in heap; fill; length.saturating_sub(text.len())]?;
    bytes.extend_from_slice(text)?;
    Ok(bytes)
}

/// An answer, or the number and the offset of its refusal.
pub(crate) fn told<T>(answer: Result<T, Refusal>) -> Result<T, (u8, usize)> {
    answer.map_err(|refusal| (refusal.number(), refusal.offset()))
}

/// What a row expects: this answer, or a refusal with that number, as a host sees it, and offset; 0 stands for none.
pub(crate) fn expected<T: Copy>(answer: T, number: u8, offset: usize) -> Result<T, (u8, usize)> {
    match number {
        0 => Ok(answer),
        _ => Err((number, offset)),
    }
}
