// Arithmetic on float positions and 3x3 matrices, every operation rounded once, in the order of the definitions.
#![tactic(auto)]

pub mod inverse;
pub mod matrix;
pub mod position;
pub mod whole;
