// Which element is the curv2 that a loop part names by its number among the curv2 alone.
ghost use Rattle.std.specs.Prelude.{◌≡◌, ◌/◌, min};
ghost use Rattle.tables.specs.Records.{element_width};
ghost use Rattle.c_tables.specs.CurveNumbers.{curve_of};

use tables::{Used, kinds, widths};

// How many elements are used and stand whole within the lent entries.
fn whole_elements(used: u32, lent: usize) -> u32
    ensures { result ≡ min used (lent / element_width) }
{
    (used as usize).min(lent / widths::ELEMENT) as u32
}

// The number of the element that is the `curve`-th curv2; 0 for none.
pub fn curve_of(used: Used, elements: &[u32], curve: u32) -> u32
    ensures { result ≡ curve_of used elements.now curve }
{
    let whole = whole_elements(used.elements, elements.len());
    let mut seen = 0;
    for i in 0..whole {
        if tables::kind_in(elements, i) == kinds::CURVE2 {
            seen += 1;
            if seen == curve {
                return i + 1;
            }
        }
    }
    0
}
