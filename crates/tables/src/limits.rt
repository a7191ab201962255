// The limits of 01 that records are held against.
pub const LEAST_NUMBER: i32 = -2_000_000_000; // in millionths

pub const MOST_NUMBER: i32 = 2_000_000_000;

pub const DEGREE: u32 = 20;

pub const CARDINAL_DEGREE: u32 = 3;

pub const SMOOTHING: u32 = 65_535;
