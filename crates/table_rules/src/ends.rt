// Runs that follow on: where the elements so far end in each table, and whether an element begins there.
ghost use Rattle.std.specs.Prelude.{◌≡◌, ◌≤◌};
ghost use Rattle.table_rules.specs.Whole.{ends_after, body_follows, element_follows, ends_used};

use tables::{Body, Element, Used, kinds};

// Numbers of corners, bodies, parameters and loop parts.
#[derive(Clone, Copy)]
pub struct Ends {
    pub corners: usize,
    pub bodies: usize,
    pub parameters: usize,
    pub parts: usize,
}

// The ends after one element more, each of those before it below 2 ^ 32.
pub fn ends_after(ends: Ends, element: Element, body: Body) -> Ends
    requires { (ends.corners ≤ 4294967295) × (ends.bodies ≤ 4294967295) × (ends.parameters ≤ 4294967295) × (ends.parts ≤ 4294967295) }
    ensures { result ≡ ends_after ends element body }
{
    let corners = ends.corners + tables::corners_length(element.corners);
    if element.kind <= kinds::FACE {
        return Ends { corners, ..ends };
    }
    Ends {
        corners,
        bodies: ends.bodies + 1,
        parameters: ends.parameters + (body.count_u as usize + body.count_v as usize),
        parts: ends.parts + body.loops as usize,
    }
}

fn body_follows(ends: Ends, body: Body) -> bool
    ensures { result ≡ body_follows ends body }
{
    body.first_parameter as usize == ends.parameters
        && (body.loops == 0 || body.first_loop as usize == ends.parts)
}

// Whether an element and its body begin at the ends.
pub fn element_follows(ends: Ends, element: Element, body: Body) -> bool
    requires { ends.bodies ≤ 4294967295 }
    ensures { result ≡ element_follows ends element body }
{
    element.corners.first as usize == ends.corners
        && (element.kind <= kinds::FACE
            || element.body as usize == ends.bodies + 1 && body_follows(ends, body))
}

// Whether the last run ends with the last used entry.
pub fn ends_used(used: Used, ends: Ends) -> bool
    ensures { result ≡ ends_used used ends }
{
    (ends.corners == used.corners as usize)
        & (ends.bodies == used.bodies as usize)
        & (ends.parameters == used.parameters as usize)
        & (ends.parts == used.loops as usize)
}
