// The entries after the used ones cleared.
ghost use Rattle.std.specs.Prelude.{◌≡◌, ◌*◌, ◌≤◌, pos, length, take};
ghost use Rattle.lists.specs.Lists.{filled};
ghost use Rattle.tables.specs.Lent.{lent_mut, SameSlices, SameLengths};
ghost use Rattle.tables.specs.Records.{element_width, body_width, range_width, loop_width, span_width};

use tables::{TablesMut, Used, widths};

// The four tables of vertices are cleared where their rows are moved.
pub fn clear_rest(used: Used, t: &mut TablesMut)
    requires { (used.corners ≤ length t.old.corners.now) × (element_width * used.elements ≤ length t.old.elements.now) × (body_width * used.bodies ≤ length t.old.bodies.now) × (range_width * used.bodies ≤ length t.old.ranges.now) × (used.parameters ≤ length t.old.parameters.now) × (loop_width * used.loops ≤ length t.old.loops.now) × (span_width * used.loops ≤ length t.old.spans.now) }
    ensures vertices { (lent_mut t.new).vertices ≡ (lent_mut t.old).vertices }
    ensures corners { t.new.corners.now ≡ filled (length t.old.corners.now) 0 (take used.corners t.old.corners.now) }
    ensures elements { t.new.elements.now ≡ filled (length t.old.elements.now) 0 (take (element_width * used.elements) t.old.elements.now) }
    ensures bodies { t.new.bodies.now ≡ filled (length t.old.bodies.now) 0 (take (body_width * used.bodies) t.old.bodies.now) }
    ensures ranges { t.new.ranges.now ≡ filled (length t.old.ranges.now) (pos 0) (take (range_width * used.bodies) t.old.ranges.now) }
    ensures parameters { t.new.parameters.now ≡ filled (length t.old.parameters.now) (pos 0) (take used.parameters t.old.parameters.now) }
    ensures loops { t.new.loops.now ≡ filled (length t.old.loops.now) 0 (take (loop_width * used.loops) t.old.loops.now) }
    ensures same { SameSlices t.old t.new }
    ensures lengths { SameLengths t.old t.new }
    ensures spans { t.new.spans.now ≡ filled (length t.old.spans.now) (pos 0) (take (span_width * used.loops) t.old.spans.now) }
{
    t.corners[used.corners as usize..].fill(0);
    t.elements[widths::ELEMENT * used.elements as usize..].fill(0);
    t.bodies[widths::BODY * used.bodies as usize..].fill(0);
    t.ranges[widths::RANGE * used.bodies as usize..].fill(0);
    t.parameters[used.parameters as usize..].fill(0);
    t.loops[widths::LOOP * used.loops as usize..].fill(0);
    t.spans[widths::SPAN * used.loops as usize..].fill(0);
}
