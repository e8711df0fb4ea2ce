// What a cube means, whatever its notation.
ghost use Rattle.std.specs.Prelude.{◌≡◌, List, length};
ghost use Rattle.std.specs.Option.{option_map};
ghost use Rattle.cube.specs.declared.slot.Slot.{Slot};
ghost use Rattle.cube.specs.Slots.{slot_at, with_slot, cube_meet, cube_covers, blank_cube};
ghost use Rattle.cube.specs.Says.{says as says_yes};

use crate::slot::Slot;
use crate::variable::VariableNumber;

pub trait CubeNotation: Copy {
    /// The twenty slots, that of x1 first.
    ghost slots: { Self → List Slot };

    fn blank() -> Self
        ensures { slots result ≡ blank_cube };

    fn slot(self, i: VariableNumber) -> Slot
        ensures { result ≡ slot_at (slots self) i.number.value };

    fn set(self, i: VariableNumber, value: Slot) -> Self
        ensures { slots result ≡ with_slot (slots self) i.number.value value };

    fn meet(self, other: Self) -> Option<Self>
        ensures { option_map slots result ≡ cube_meet (slots self) (slots other) };

    fn covers(self, other: Self) -> bool
        ensures { result ≡ cube_covers (slots self) (slots other) };

    fn says(self, state: u32) -> bool
        ensures { result ≡ says_yes (slots self) state };

    /// A law, which each notation proves: there are twenty.
    ghost twenty: { (c : Self) → length (slots c) ≡ 20 };
}
