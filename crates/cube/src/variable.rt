// The number of a variable, from 1 to 20.
ghost use Rattle.std.specs.Prelude.{◌≡◌, ◌≤◌, min, max, pos, MatchResult};
ghost use Rattle.cube.specs.Ranges.{Outside};
ghost use Rattle.cube.specs.Refusals.{fault, fault_of};

use crate::ranged::Ranged;
use crate::refusal::Refusal;

// A type over a range of its own, as a register's: neither number can be handed in for the other, and each has its refusal.
#[derive(Clone, Copy, PartialEq, Eq, Debug)]
pub struct VariableNumber {
    number: Ranged<1, 20>,
}

/// The variable of this number; refused where there is none.
impl TryFrom<i32> for VariableNumber {
    type Error = Refusal;

    ghost try_from_gives = { λ number result. MatchResult result (λ v. pos v.number.value ≡ number)
        (λ e. (fault_of e ≡ fault 2 0) × Outside 1 20 number) };

    fn try_from(number: i32) -> Result<VariableNumber, Refusal> {
        let number = Ranged::new(number).ok_or(Refusal::NoSuchVariable)?;
        Ok(VariableNumber { number })
    }
}

impl VariableNumber {
    /// The variable whose number is nearest to this one.
    pub fn nearest(number: u32) -> VariableNumber
        ensures { result.number.value ≡ max 1 (min number 20) }
    {
        VariableNumber {
            number: Ranged::nearest(number),
        }
    }

    pub fn number(self) -> u8
        ensures value { result ≡ self.number.value }
        ensures within { (1 ≤ result) × (result ≤ 20) }
    {
        self.number.get() as u8
    }
}
