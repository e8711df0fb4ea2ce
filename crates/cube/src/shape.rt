// The size of a calculator: how many variables, and how many places each register has.
ghost use Rattle.std.specs.Prelude.{◌≡◌, ◌≤◌, ◌⊎◌, pos, MatchResult};
ghost use Rattle.cube.specs.Ranges.{Outside};
ghost use Rattle.cube.specs.Refusals.{fault, fault_of};

use crate::ranged::Ranged;
use crate::refusal::Refusal;

#[derive(Clone, Copy, PartialEq, Eq, Debug)]
pub struct Shape {
    variables: Ranged<1, 20>,
    places: Ranged<1, 256>,
}

impl Shape {
    /// The shape of 1 to 20 variables and 1 to 256 places; refused where one is beyond its range.
    pub fn new(variables: i32, places: i32) -> Result<Shape, Refusal>
        ensures { MatchResult result (λ s. (pos s.variables.value ≡ variables) × (pos s.places.value ≡ places))
            (λ e. (fault_of e ≡ fault 3 0) × (Outside 1 20 variables ⊎ Outside 1 256 places)) }
    {
        let variables = Ranged::new(variables).ok_or(Refusal::ShapeBeyondRange)?;
        let places = Ranged::new(places).ok_or(Refusal::ShapeBeyondRange)?;
        Ok(Shape { variables, places })
    }

    pub fn variables(self) -> u8
        ensures value { result ≡ self.variables.value }
        ensures within { (1 ≤ result) × (result ≤ 20) }
    {
        self.variables.get() as u8
    }

    pub fn places(self) -> u16
        ensures value { result ≡ self.places.value }
        ensures within { (1 ≤ result) × (result ≤ 256) }
    {
        self.places.get()
    }
}
