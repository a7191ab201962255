// The four tables of vertices, each swept with its part of the list of new numbers.
ghost use Rattle.std.specs.Prelude.{[], ℕ, ◌≡◌, ◌+◌, ◌*◌, ◌≤◌, ◌<◌, length};
ghost use Rattle.std.proofs.lemmas.List.Edits.{sets};
ghost use Rattle.tables.specs.Tables.{tables};
ghost use Rattle.tables.specs.Records.{v_width, vt_width, vn_width, vp_width, element_in};
ghost use Rattle.sweep_marks.specs.Marks.{runs_by, corners_upto};
ghost use Rattle.sweep.specs.Vertices.{VerticesSwept};

use sweep_marks::VertexTable;
use sweep_rows::corners::renumber;
use sweep_rows::sweep_part;
use tables::{Used, widths};

// The used counts afterwards.
fn sweep_vertices(
    used: Used,
    v: &mut [i32],
    vt: &mut [i32],
    vn: &mut [i32],
    vp: &mut [i32],
    corners: &[u32],
    elements: &[u32],
    numbers: &mut [u32],
) -> Used
    requires { (v_width * used.v ≤ length v.old) × (vt_width * used.vt ≤ length vt.old) × (vn_width * used.vn ≤ length vn.old) × (vp_width * used.vp ≤ length vp.old) × (used.v + used.vt + used.vn + used.vp ≤ length numbers.old) }
    ensures { VerticesSwept used (tables v.old vt.old vn.old vp.old corners.now elements.now [] [] [] [] []) numbers.old result v.new vt.new vn.new vp.new numbers.new }
{
    let n = used.elements;
    let vts = used.v as usize;
    let vns = vts + used.vt as usize;
    let vps = vns + used.vn as usize;
    let kept_v = sweep_part(
        VertexTable::V,
        widths::V,
        elements,
        n,
        corners,
        v,
        numbers,
        0,
        used.v,
    );
    let kept_vt = sweep_part(
        VertexTable::Vt,
        widths::VT,
        elements,
        n,
        corners,
        vt,
        numbers,
        vts,
        used.vt,
    );
    let kept_vn = sweep_part(
        VertexTable::Vn,
        widths::VN,
        elements,
        n,
        corners,
        vn,
        numbers,
        vns,
        used.vn,
    );
    let kept_vp = sweep_part(
        VertexTable::Vp,
        widths::VP,
        elements,
        n,
        corners,
        vp,
        numbers,
        vps,
        used.vp,
    );
    Used {
        v: kept_v,
        vt: kept_vt,
        vn: kept_vn,
        vp: kept_vp,
        corners: used.corners,
        elements: used.elements,
        bodies: used.bodies,
        parameters: used.parameters,
        loops: used.loops,
    }
}

// The four tables swept and the corners renumbered; the elements stay. Slices in place of the tables as one value: tried, and
// the borrow checker has no rule yet for a table that is lent to be read beside others of the same value that are lent to be written.
pub fn sweep_named(
    used: Used,
    v: &mut [i32],
    vt: &mut [i32],
    vn: &mut [i32],
    vp: &mut [i32],
    corners: &mut [u32],
    elements: &mut [u32],
    numbers: &mut [u32],
) -> Used
    requires lent { (v_width * used.v ≤ length v.old) × (vt_width * used.vt ≤ length vt.old) × (vn_width * used.vn ≤ length vn.old) × (vp_width * used.vp ≤ length vp.old) × (used.v + used.vt + used.vn + used.vp ≤ length numbers.old) }
    requires follow { ((i : ℕ) → i < used.elements → (element_in elements.old i).corners.first ≡ corners_upto elements.old i) × (corners_upto elements.old used.elements ≤ length corners.old) }
    ensures vertices { VerticesSwept used (tables v.old vt.old vn.old vp.old corners.old elements.old [] [] [] [] []) numbers.old result v.new vt.new vn.new vp.new numbers.new }
    ensures corners { corners.new ≡ sets corners.old 0 (runs_by used numbers.new elements.old corners.old used.elements) }
    ensures elements { elements.new ≡ elements.old }
{
    let after = sweep_vertices(used, v, vt, vn, vp, corners, elements, numbers);
    renumber(used, numbers, elements, corners);
    after
}
