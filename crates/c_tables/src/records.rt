// An element and a body as the records of numbers that C and Rust get: the names are those of docs/RECORDS.md.
ghost use Rattle.std.specs.Prelude.{◌≡◌};
ghost use Rattle.c_tables.specs.Records.{element_record, body_record};

use tables::{Body, Element};

// All zeros for no such element.
#[repr(C)]
#[derive(Clone, Copy)]
pub struct ElementRecord {
    pub kind: u32,
    pub first_corner: u32,
    pub corners: u32,
    pub body: u32,
    pub smoothing: u32,
    pub group_place: u32,
    pub group_length: u32,
    pub material_place: u32,
    pub material_length: u32,
}

// All zeros for no such body; a curve's v entries are 0.
#[repr(C)]
#[derive(Clone, Copy)]
pub struct BodyRecord {
    pub basis: u32,
    pub rational: u32,
    pub u_degree: u32,
    pub v_degree: u32,
    pub first_parameter: u32,
    pub u_parameters: u32,
    pub v_parameters: u32,
    pub first_loop_part: u32,
    pub loop_parts: u32,
    pub u_start: i32,
    pub u_end: i32,
    pub v_start: i32,
    pub v_end: i32,
}

pub fn element_record(e: Element) -> ElementRecord
    ensures { result ≡ element_record e }
{
    let run = e.corners;
    let group = e.group;
    let material = e.material;
    ElementRecord {
        kind: e.kind,
        first_corner: run.first,
        corners: run.count,
        body: e.body,
        smoothing: e.smoothing,
        group_place: group.place,
        group_length: group.length,
        material_place: material.place,
        material_length: material.length,
    }
}

pub fn body_record(b: Body) -> BodyRecord
    ensures { result ≡ body_record b }
{
    BodyRecord {
        basis: b.basis,
        rational: b.rational,
        u_degree: b.degree_u,
        v_degree: b.degree_v,
        first_parameter: b.first_parameter,
        u_parameters: b.count_u,
        v_parameters: b.count_v,
        first_loop_part: b.first_loop,
        loop_parts: b.loops,
        u_start: b.start_u,
        u_end: b.end_u,
        v_start: b.start_v,
        v_end: b.end_v,
    }
}
