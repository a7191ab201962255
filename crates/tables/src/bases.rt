// The types of bodies, by the number that a body's record holds.
pub const BEZIER: u32 = 1;

pub const BSPLINE: u32 = 2;

pub const CARDINAL: u32 = 3;

pub const TAYLOR: u32 = 4;
