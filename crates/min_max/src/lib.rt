// A cube as two words, the least and the greatest state that it says yes to; min 1 with max 0 is read as Blank.
#![tactic(auto)]

ghost use Rattle.min_max.specs.MinMax.{slot_of, pair_slots, ProperPair};
ghost use Rattle.cube.specs.Slots.{blank_cube, with_slot, cube_meet};
ghost use Rattle.std.specs.Prelude.{◌≡◌, ◌<◌, ◌≤◌, IfSome};
ghost use Rattle.std.specs.Option.{option_map};
ghost use Rattle.std.proofs.Math.Path.{refl};

use cube::notation::CubeNotation;
use cube::slot::Slot;
use cube::variable::VariableNumber;

const ALL: u32 = 0xfffff;

#[derive(Clone, Copy)]
pub struct MinMaxCube {
    min: u32,
    max: u32,
}

impl MinMaxCube {
    /// The cube of any pair; the bits beyond the twentieth are not looked at.
    // Two bounds of one type: a `From` of a pair would lose their names.
    pub fn from_bounds(min: u32, max: u32) -> MinMaxCube
        ensures { (result.min ≡ min) × (result.max ≡ max) }
    {
        MinMaxCube { min, max }
    }

    pub fn min(self) -> u32
        ensures { result ≡ self.min }
    {
        self.min
    }

    pub fn max(self) -> u32
        ensures { result ≡ self.max }
    {
        self.max
    }
}

// The slot whose least value is `low` and whose greatest is `high`.
// Rust lets no `From` between `Slot` and a pair of `u32`, all of elsewhere, stand here; a type for the pair would serve two calls.
fn slot_of(low: u32, high: u32) -> Slot
    ensures { result ≡ slot_of low high }
{
    // No `match` on the pair: it makes jumps, which the processor guesses wrong at every other slot of mixed cubes.
    if low == 0 {
        if high == 0 { Slot::No } else { Slot::Blank }
    } else {
        if high == 0 { Slot::Blank } else { Slot::Yes }
    }
}

// The least and the greatest value that a slot lets through.
// Rust lets no `From` between `Slot` and a pair of `u32`, all of elsewhere, stand here; a type for the pair would serve two calls.
fn bounds(value: Slot) -> (u32, u32)
    ensures digits { (result.0 ≤ result.1) × (result.1 < 2) }
    ensures means { slot_of result.0 result.1 ≡ value }
{
    match value {
        Slot::No => (0, 0),
        Slot::Yes => (1, 1),
        Slot::Blank => (0, 1),
    }
}

// `proper`: of cubes without a slot of min 1 and max 0 no function makes one with it.
impl CubeNotation for MinMaxCube {
    ghost slots = { λ c. pair_slots 20 c.min c.max };

    ghost twenty = { unfold pair_slots in λ cube. refl };

    #[tactic(auto, using(crate::proofs::Pair::proper_blank), unfolding(crate::specs::MinMax::pair_slots))]
    fn blank() -> MinMaxCube
        ensures means { pair_slots 20 result.min result.max ≡ blank_cube }
        ensures proper { ProperPair 20 result.min result.max }
    {
        MinMaxCube { min: 0, max: ALL }
    }

    #[tactic(auto, using(crate::proofs::Pair::slot_code))]
    fn slot(self, i: VariableNumber) -> Slot {
        let k = i.number() - 1;
        slot_of((self.min >> k) & 1, (self.max >> k) & 1)
    }

    #[tactic(auto, using(crate::proofs::Pair::set_code, crate::proofs::Pair::set_stays_proper))]
    fn set(self, i: VariableNumber, value: Slot) -> MinMaxCube
        ensures means { pair_slots 20 result.min result.max
            ≡ with_slot (pair_slots 20 self.min self.max) i.number.value value }
        ensures proper { ProperPair 20 self.min self.max → ProperPair 20 result.min result.max }
    {
        let k = i.number() - 1;
        let (low, high) = bounds(value);
        MinMaxCube {
            min: self.min ^ ((((self.min >> k) & 1) ^ low) << k),
            max: self.max ^ ((((self.max >> k) & 1) ^ high) << k),
        }
    }

    #[tactic(auto, using(cube::proofs::Meets::map_then_some, crate::proofs::Pair::meet_code, cube::proofs::Meets::if_then_some, crate::proofs::Pair::proper_meet_code))]
    fn meet(self, other: MinMaxCube) -> Option<MinMaxCube>
        ensures means { option_map (λ c. pair_slots 20 c.min c.max) result
            ≡ cube_meet (pair_slots 20 self.min self.max) (pair_slots 20 other.min other.max) }
        ensures proper { IfSome result (λ m. ProperPair 20 m.min m.max) }
    {
        let min = (self.min & self.max) | (other.min & other.max);
        let max = (self.min | self.max) & (other.min | other.max);
        (min & (max ^ ALL) & ALL == 0).then_some(MinMaxCube { min, max })
    }

    #[tactic(auto, using(crate::proofs::Pair::covers_code))]
    fn covers(self, other: MinMaxCube) -> bool {
        let below = self.min & self.max & ((other.min & other.max) ^ ALL);
        let above = (other.min | other.max) & ((self.min | self.max) ^ ALL);
        (below | above) & ALL == 0
    }

    #[tactic(auto, using(crate::proofs::Pair::says_code))]
    fn says(self, state: u32) -> bool {
        let missing = self.min & self.max & (state ^ ALL);
        let extra = state & ((self.min | self.max) ^ ALL);
        (missing | extra) & ALL == 0
    }
}
