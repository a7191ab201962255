// One pass over the elements, with the curv2 elements and the ends of runs so far.
ghost use Rattle.std.specs.Prelude.{◌≡◌, ◌&&◌, ◌*◌, ◌≤◌, length};
ghost use Rattle.tables.specs.Lent.{lent};
ghost use Rattle.tables.specs.Records.{element_width};
ghost use Rattle.table_rules.specs.Whole.{elements_obey, runs_follow};

use crate::ends::{Ends, element_follows, ends_after, ends_used};
use record_rules::loops::curve_or_none;
use record_rules::records_obey;
use tables::{Tables, Used};

pub fn elements_obey(used: Used, t: &Tables) -> bool
    requires { element_width * used.elements ≤ length t.now.elements.now }
    ensures { result ≡ (elements_obey used (lent t.now) && runs_follow used (lent t.now)) }
{
    let mut ends = Ends {
        corners: 0,
        bodies: 0,
        parameters: 0,
        parts: 0,
    };
    let mut curves = 0;
    for i in 0..used.elements {
        let element = tables::lent_element(t.elements, i);
        let body = table_asking::body_of(used, t.bodies, t.ranges, element.body);
        if !records_obey(used, t, curves, element, body) || !element_follows(ends, element, body) {
            return false;
        }
        ends = ends_after(ends, element, body);
        curves += curve_or_none(element.kind);
    }
    ends_used(used, ends)
}
