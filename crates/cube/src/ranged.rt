// Numbers within a range that their type names.
ghost use Rattle.std.specs.Prelude.{◌≡◌, ◌<◌, ◌≤◌, max, min, pos, MatchOption};
ghost use Rattle.cube.specs.Ranges.{Outside};

use std::fmt;

/// A whole number from LOW to HIGH.
#[derive(Clone, Copy, PartialEq, Eq)]
pub struct Ranged<const LOW: u16, const HIGH: u16> {
    value: u16,
    ghost low: { LOW ≤ value },
    ghost high: { value ≤ HIGH },
}

impl<const LOW: u16, const HIGH: u16> Ranged<LOW, HIGH> {
    /// This number, if it is within the range.
    // No TryFrom: each type over a range has a refusal of its own, so there is none to give here.
    pub fn new(value: i32) -> Option<Self>
        ensures { MatchOption result (Outside LOW HIGH value) (λ r. pos r.value ≡ value) }
    {
        if value < i32::from(LOW) || value > i32::from(HIGH) {
            return None;
        }
        Some(Ranged {
            value: value as u16,
        })
    }

    /// The number of the range that is nearest to this one.
    // Only a range with a number in it has a nearest one, and each caller here names its range.
    pub(crate) fn nearest(value: u32) -> Self
        requires { LOW ≤ HIGH }
        ensures { result.value ≡ max LOW (min value HIGH) }
    {
        Ranged {
            value: value.clamp(u32::from(LOW), u32::from(HIGH)) as u16,
        }
    }

    pub fn get(self) -> u16
        ensures value { result ≡ self.entry.value }
        ensures within { (LOW ≤ result) × (result ≤ HIGH) }
    {
        self.value
    }
}

// By hand: what holds a number prints it as a number, `number: 3`.
impl<const LOW: u16, const HIGH: u16> fmt::Debug for Ranged<LOW, HIGH> {
    ghost use Rattle.std.specs.Prelude.{decimal, Some};

    ghost debug_output = { λ r. Some (decimal r.value) };

    fn fmt<W: fmt::Write>(&self, f: &mut fmt::Formatter<W>) -> fmt::Result {
        fmt::Debug::fmt(&self.value, f)
    }
}
