// The numbers of a v's and of a vp's record.
ghost use Rattle.std.specs.Prelude.{◌≡◌, ◌+◌, ◌*◌, ◌≤◌, ◌<◌, length};
ghost use Rattle.tables.specs.Records.{v_width, vp_width, value_at};
ghost use Rattle.tables.specs.Vertices.{vertex_in, parameter_vertex_in};

use crate::{entry_in, widths};

#[derive(Clone, Copy)]
pub struct Vertex {
    pub x: i32,
    pub y: i32,
    pub z: i32,
    pub w: i32,
}

#[derive(Clone, Copy)]
pub struct ParameterVertex {
    pub given: i32,
    pub u: i32,
    pub v: i32,
    pub w: i32,
}

// The number of a record with which its coordinates start.
pub const V_START: usize = 0;

pub const VP_START: usize = 1;

// What a v's w is, and a vp's, where it was not given.
pub const WEIGHT: i32 = 1_000_000;

// The v at that index, counted from 0, which stands whole within the lent entries.
pub fn lent_vertex(v: &[i32], index: usize) -> Vertex
    requires { v_width * index + v_width ≤ length v.now }
    ensures { result ≡ vertex_in v.now index }
{
    let at = widths::V * index;
    Vertex {
        x: v[at],
        y: v[at + 1],
        z: v[at + 2],
        w: v[at + 3],
    }
}

// The vp at that index, likewise.
pub fn lent_parameter_vertex(vp: &[i32], index: usize) -> ParameterVertex
    requires { vp_width * index + vp_width ≤ length vp.now }
    ensures { result ≡ parameter_vertex_in vp.now index }
{
    let at = widths::VP * index;
    ParameterVertex {
        given: vp[at],
        u: vp[at + 1],
        v: vp[at + 2],
        w: vp[at + 3],
    }
}

// Number `entry` of the v, or of the vp, at that index: both have four to a record.
pub fn lent_number(values: &[i32], index: usize, entry: usize) -> i32
    requires { (v_width * index + v_width ≤ length values.now) × (entry < v_width) }
    ensures { result ≡ value_at v_width values.now index entry }
{
    values[widths::V * index + entry]
}

// How many coordinates of the vp at that index were given; 0 past the table's end.
pub fn given_at(vp: &[i32], index: u32) -> i32
    ensures { result ≡ value_at vp_width vp.now index 0 }
{
    entry_in(vp, widths::VP * index as usize, 0)
}
