// A cube as one word, two bits to a slot: 10 is No, 01 is Yes, 11 is Blank, and 00 is read as Blank.
#![tactic(auto)]

ghost use Rattle.std.specs.Prelude.{◌≡◌, ◌<◌, IfSome};
ghost use Rattle.std.proofs.Math.Path.{refl};
ghost use Rattle.positional.specs.Fields.{field_slot, word_slots, filled_word, spread_word, state_pattern, ProperWord};
ghost use Rattle.cube.specs.Slots.{blank_cube, with_slot, cube_meet};
ghost use Rattle.std.specs.Option.{option_map};

use cube::notation::CubeNotation;
use cube::slot::Slot;
use cube::variable::VariableNumber;

const ALL: u64 = 0xff_ffff_ffff;
// The lower bit of each field.
const LOWER: u64 = 0x55_5555_5555;
// The upper bit of each field.
const UPPER: u64 = 0xaa_aaaa_aaaa;

#[derive(Clone, Copy)]
pub struct PositionalCube {
    word: u64,
}

/// The cube of any word; the bits beyond the twentieth field are not looked at.
impl From<u64> for PositionalCube {
    ghost from_gives = { λ word result. result.word ≡ word };

    fn from(word: u64) -> PositionalCube {
        PositionalCube { word }
    }
}

impl From<PositionalCube> for u64 {
    ghost from_gives = { λ cube result. result ≡ cube.word };

    fn from(cube: PositionalCube) -> u64 {
        cube.word
    }
}

// The twenty fields, with 11 where one is 00.
#[tactic(auto, using(crate::proofs::Word::filled_code))]
fn filled(word: u64) -> u64
    ensures { result ≡ filled_word 20 word }
{
    let empty = ((word | (word >> 1)) & LOWER) ^ LOWER;
    (word & ALL) | (empty * 3)
}

// The twenty low bits of a state, each the lower bit of a field.
#[tactic(auto, using(crate::proofs::Stages::spread_code))]
fn spread(state: u32) -> u64
    ensures { result ≡ spread_word 20 state }
{
    let bits = u64::from(state & 0xf_ffff);
    let halves = (bits | (bits << 16)) & 0xf_0000_ffff;
    let bytes = (halves | (halves << 8)) & 0xf_00ff_00ff;
    let nibbles = (bytes | (bytes << 4)) & 0xf_0f0f_0f0f;
    let pairs = (nibbles | (nibbles << 2)) & 0x33_3333_3333;
    (pairs | (pairs << 1)) & LOWER
}

// The field of each variable at a state: 10 for 0, 01 for 1.
#[tactic(auto, using(crate::proofs::Word::spread_fits, crate::proofs::Word::pattern_code))]
fn pattern(state: u32) -> u64
    ensures { result ≡ state_pattern 20 state }
{
    UPPER - spread(state)
}

// The slot that a field means.
// Rust lets no `From` between `u64` and `Slot`, both of elsewhere, stand here; a type for a field would serve two calls.
fn field_slot(field: u64) -> Slot
    ensures { result ≡ field_slot field }
{
    match field {
        1 => Slot::Yes,
        2 => Slot::No,
        _ => Slot::Blank,
    }
}

// The field that means a slot.
// Rust lets no `From` between `u64` and `Slot`, both of elsewhere, stand here; a type for a field would serve two calls.
fn slot_field(value: Slot) -> u64
    ensures field { (0 < result) × (result < 4) }
    ensures means { field_slot result ≡ value }
{
    match value {
        Slot::No => 2,
        Slot::Yes => 1,
        Slot::Blank => 3,
    }
}

// `proper`: of cubes without a field 00 no function makes one with it.
impl CubeNotation for PositionalCube {
    ghost slots = { λ c. word_slots 20 c.word };

    ghost twenty = { unfold word_slots in λ cube. refl };

    #[tactic(auto, using(crate::proofs::Word::proper_blank), unfolding(crate::specs::Fields::word_slots))]
    fn blank() -> PositionalCube
        ensures means { word_slots 20 result.word ≡ blank_cube }
        ensures proper { ProperWord 20 result.word }
    {
        PositionalCube { word: ALL }
    }

    #[tactic(auto, using(crate::proofs::Word::slot_code))]
    fn slot(self, i: VariableNumber) -> Slot {
        let k = 2 * (i.number() - 1);
        field_slot((self.word >> k) & 3)
    }

    #[tactic(auto, using(crate::proofs::Word::set_code, crate::proofs::Word::set_stays_proper))]
    fn set(self, i: VariableNumber, value: Slot) -> PositionalCube
        ensures means { word_slots 20 result.word
            ≡ with_slot (word_slots 20 self.word) i.number.value value }
        ensures proper { ProperWord 20 self.word → ProperWord 20 result.word }
    {
        let k = 2 * (i.number() - 1);
        let field = slot_field(value);
        PositionalCube {
            word: self.word ^ ((((self.word >> k) & 3) ^ field) << k),
        }
    }

    #[tactic(auto, using(cube::proofs::Meets::map_then_some, cube::proofs::Meets::if_then_some, crate::proofs::Word::meet_code, crate::proofs::Word::proper_meet_code))]
    fn meet(self, other: PositionalCube) -> Option<PositionalCube>
        ensures means { option_map (λ c. word_slots 20 c.word) result
            ≡ cube_meet (word_slots 20 self.word) (word_slots 20 other.word) }
        ensures proper { IfSome result (λ m. ProperWord 20 m.word) }
    {
        let word = filled(self.word) & filled(other.word);
        ((word | (word >> 1)) & LOWER == LOWER).then_some(PositionalCube { word })
    }

    #[tactic(auto, using(crate::proofs::Word::covers_word))]
    fn covers(self, other: PositionalCube) -> bool {
        let wide = filled(self.word);
        let narrow = filled(other.word);
        wide & narrow == narrow
    }

    #[tactic(auto, using(crate::proofs::Word::says_word))]
    fn says(self, state: u32) -> bool {
        let open = filled(self.word);
        let asked = pattern(state);
        open & asked == asked
    }
}
