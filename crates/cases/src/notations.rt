// The notations that the cases are tried in.
pub use min_max::MinMaxCube;
pub use positional::PositionalCube;
