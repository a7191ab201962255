// The kinds of elements, by the number that an element's record holds. Those from a curve on have a body.
pub const POINT: u32 = 1;

pub const LINE: u32 = 2;

pub const FACE: u32 = 3;

pub const CURVE: u32 = 4;

pub const CURVE2: u32 = 5;

pub const SURFACE: u32 = 6;
