// How many numbers a record has in each table.
pub const V: usize = 4;

pub const VT: usize = 3;

pub const VN: usize = 3;

pub const VP: usize = 4;

pub const CORNER: usize = 3;

pub const ELEMENT: usize = 9;

pub const BODY: usize = 9;

pub const RANGE: usize = 4;

pub const LOOP: usize = 2;

pub const SPAN: usize = 2;
