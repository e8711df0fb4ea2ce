// Numbers at the edges of their ranges.
use crate::calls::{expected, told};
use calculator::register::RegisterNumber;
use cube::shape::Shape;
use cube::variable::VariableNumber;

// A number, and the refusal of it; 0 where it is taken.
static VARIABLES: [(i32, u8); 9] = [
    (0, 2),
    (1, 0),
    (2, 0),
    (20, 0),
    (21, 2),
    (256, 2),
    (-1, 2),
    (i32::MIN, 2),
    (i32::MAX, 2),
];

static REGISTERS: [(i32, u8); 8] = [
    (-1, 1),
    (0, 0),
    (1, 0),
    (31, 0),
    (32, 1),
    (256, 1),
    (i32::MIN, 1),
    (i32::MAX, 1),
];

// Variables, places, and the refusal.
static SHAPES: [(i32, i32, u8); 14] = [
    (0, 1, 3),
    (1, 1, 0),
    (20, 1, 0),
    (21, 1, 3),
    (1, 0, 3),
    (1, 256, 0),
    (20, 256, 0),
    (1, 257, 3),
    (21, 257, 3),
    (-1, 1, 3),
    (1, -1, 3),
    (257, 1, 3),
    (i32::MIN, 1, 3),
    (1, i32::MAX, 3),
];

fn variable(number: i32) -> Result<i32, (u8, usize)> {
    told(VariableNumber::try_from(number)).map(|v| i32::from(v.number()))
}

fn register(number: i32) -> Result<i32, (u8, usize)> {
    told(RegisterNumber::try_from(number)).map(|k| i32::from(k.number()))
}

fn shape(variables: i32, places: i32) -> Result<(i32, i32), (u8, usize)> {
    told(Shape::new(variables, places)).map(|s| (i32::from(s.variables()), i32::from(s.places())))
}

#[test]
fn variables_count_from_1_to_20(rt: HostRuntime) {
    for &(number, refusal) in &VARIABLES {
        assert_eq!(rt; variable(number), expected(number, refusal, 0));
    }
}

#[test]
fn registers_count_from_0_to_31(rt: HostRuntime) {
    for &(number, refusal) in &REGISTERS {
        assert_eq!(rt; register(number), expected(number, refusal, 0));
    }
}

#[test]
fn shapes_have_edges(rt: HostRuntime) {
    for &(variables, places, refusal) in &SHAPES {
        assert_eq!(rt;
            shape(variables, places),
            expected((variables, places), refusal, 0)
        );
    }
}
