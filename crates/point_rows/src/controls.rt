ghost use Rattle.std.specs.Prelude.{◌≡◌, ◌+◌, ◌<◌};
ghost use Rattle.rounding.specs.Range.{InRange};
ghost use Rattle.tables.specs.Records.{v_width};
ghost use Rattle.point_rows.specs.Controls.{control_at, ControlsLent, first_control_of, Reached};

use crate::BodyDirection;
use tables::bases;
use tables::vertices::lent_number;

// Number `axis` of the vertex that control i names, of the controls from the corner number `first` on.
pub fn control(values: &[i32], corners: &[u32], first: u32, axis: usize, i: usize) -> i32
    requires { ControlsLent values.now corners.now first i (i + 1) × (axis < v_width) }
    ensures { (result ≡ control_at values.now corners.now first axis i) × InRange result }
{
    let vertex = tables::lent_corner_from(corners, first, i).v as usize;
    lent_number(values, vertex - 1, axis)
}

// The first of the n + 1 controls that a point is made from.
pub fn first_control(along: BodyDirection, chosen: usize) -> usize
    requires { Reached along chosen }
    ensures { result ≡ first_control_of along chosen }
{
    if along.basis == bases::BSPLINE {
        return chosen - along.degree;
    }
    chosen * along.degree
}
