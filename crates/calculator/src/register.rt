// The number of a register, from 0 to 31.
ghost use Rattle.std.specs.Prelude.{◌≡◌, ◌<◌, pos, MatchResult};
ghost use Rattle.cube.specs.Ranges.{Outside};
ghost use Rattle.cube.specs.Refusals.{fault, fault_of};

use cube::ranged::Ranged;
use cube::refusal::Refusal;

// A type over a range of its own, as a variable's: neither number can be handed in for the other, and each has its refusal.
#[derive(Clone, Copy, PartialEq, Eq, Debug)]
pub struct RegisterNumber {
    number: Ranged<0, 31>,
}

/// The register of this number; refused where there is none.
impl TryFrom<i32> for RegisterNumber {
    type Error = Refusal;

    ghost try_from_gives = { λ number result. MatchResult result (λ k. pos k.number.value ≡ number)
        (λ e. (fault_of e ≡ fault 1 0) × Outside 0 31 number) };

    fn try_from(number: i32) -> Result<RegisterNumber, Refusal> {
        let number = Ranged::new(number).ok_or(Refusal::NoSuchRegister)?;
        Ok(RegisterNumber { number })
    }
}

impl RegisterNumber {
    pub fn number(self) -> u8
        ensures value { result ≡ self.number.value }
        ensures within { result < 32 }
    {
        self.number.get() as u8
    }
}

impl From<RegisterNumber> for usize {
    ghost from_gives = { λ k index. index ≡ k.number.value };

    fn from(k: RegisterNumber) -> usize {
        usize::from(k.number())
    }
}
