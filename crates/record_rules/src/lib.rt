// Refusal 15: whether one element's records, and every vertex that they name, obey the rules and lie within the used and the lent entries.
#![tactic(auto)]

ghost use Rattle.std.specs.Prelude.{◌≡◌, ◌&&◌, leb};
ghost use Rattle.tables.specs.Lent.{lent};
ghost use Rattle.tables.specs.Records.{surface_kind};
ghost use Rattle.record_rules.specs.Corners.{corners_obey};
ghost use Rattle.record_rules.specs.Rules.{records_obey};

use crate::bodies::record_with;
use crate::corners::corners_obey;
use tables::{Body, CornerRun, Element, Tables, Used, kinds, limits};

mod bare;
mod bodies;
mod corners;
pub mod loops;
pub mod numbers;
pub mod vertices;

// An element but for its body: its kind, its smoothing and its corners.
fn element_obeys(used: Used, t: &Tables, element: Element) -> bool
    ensures { result ≡ (leb 1 element.kind && leb element.kind surface_kind && leb element.smoothing 65535 && corners_obey used (lent t.now) element.kind element.corners) }
{
    // number by number: copied whole, the compiler reads both at once and takes them apart again
    let run = CornerRun {
        first: element.corners.first,
        count: element.corners.count,
    };
    kinds::POINT <= element.kind
        && element.kind <= kinds::SURFACE
        && element.smoothing <= limits::SMOOTHING
        && corners_obey(used, t, element.kind, run)
}

// An element with its body, after `curves` curv2 elements.
#[tactic(auto, unfolding(crate::specs::Rules::records_obey))]
pub fn records_obey(used: Used, t: &Tables, curves: u32, element: Element, body: Body) -> bool
    ensures { result ≡ records_obey used (lent t.now) curves element body }
{
    if !element_obeys(used, t, element) {
        return false;
    }
    if element.kind <= kinds::FACE {
        return element.body == 0;
    }
    record_with(used, t, curves, element.kind, element.corners.count, body)
}
