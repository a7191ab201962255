// The statements of a file, one enumeration for all that tell them apart, and what each asks of its line.
#![tactic(auto)]

pub mod rows; // a row of rules for each statement
pub mod rules; // what a row is made of, and the tests by it

// v, vt, vn, vp.
#[derive(Clone, Copy)]
pub enum VertexKind {
    Geometric,
    Texture,
    Normal,
    Parametric,
}

// p, l, f.
#[derive(Clone, Copy)]
pub enum Shape {
    Point,
    Line,
    Face,
}

// curv, curv2, surf.
#[derive(Clone, Copy)]
pub enum Free {
    Curve,
    Curve2,
    Surface,
}

// 01, "What the box carries": what is stored, and what is passed over.
#[derive(Clone, Copy)]
pub enum Carried {
    Vertex(VertexKind),
    Element(Shape),
    Body(Free),
    Parameters,
    Trim,
    Hole,
    End,
    BodyType,
    Degree,
    Group,
    Smoothing,
    Material,
    PassedOver,
}

// A keyword's statement: carried, known and refused (4), or unknown (3).
#[derive(Clone, Copy)]
pub enum Statement {
    Carried(Carried),
    Refused,
    Unknown,
}
