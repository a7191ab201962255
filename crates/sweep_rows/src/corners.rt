// The corners' references renumbered.
ghost use Rattle.std.specs.Prelude.{◌≡◌, ℕ, ◌+◌, ◌≤◌, ◌<◌, cond, eqb, length};
ghost use Rattle.std.proofs.lemmas.List.Edits.{sets};
ghost use Rattle.tables.specs.Records.{corners_end, element_in, curve2_kind};
ghost use Rattle.sweep_marks.specs.Marks.{number_listed, corner_by, marked_run, runs_by, corners_upto};

use tables::{Corner, CornerRun, Used, kinds};

// The new number of record `number` of a kind whose numbers begin at `base`; 0 stays 0.
fn number_of(numbers: &[u32], base: usize, number: u32) -> u32
    requires { base ≤ 12884901885 }
    ensures { result ≡ number_listed numbers.now base number }
{
    if number == 0 {
        0
    } else {
        tables::entry_in(numbers, base + (number as usize - 1), 0)
    }
}

// Where the numbers of the kind begin that an element's corners name in the first place.
fn point_base(used: Used, kind: u32) -> usize
    ensures { (result ≡ cond (eqb kind curve2_kind) (used.v + used.vt + used.vn) 0) × (result ≤ 12884901885) }
{
    if kind == kinds::CURVE2 {
        used.v as usize + used.vt as usize + used.vn as usize
    } else {
        0
    }
}

#[tactic(auto, unfolding(sweep_marks::specs::Marks::corner_by))]
fn corner_by(used: Used, numbers: &[u32], kind: u32, corner: Corner) -> Corner
    ensures { result ≡ corner_by used numbers.now kind corner }
{
    let textures = used.v as usize;
    Corner {
        v: number_of(numbers, point_base(used, kind), corner.v),
        vt: number_of(numbers, textures, corner.vt),
        vn: number_of(numbers, textures + used.vt as usize, corner.vn),
    }
}

fn renumber_run(used: Used, numbers: &[u32], corners: &mut [u32], kind: u32, run: CornerRun)
    requires { corners_end run ≤ length corners.old }
    ensures { corners.new ≡ sets corners.old run.first (marked_run used numbers.now corners.old kind run run.count) }
{
    for k in 0..run.count as usize {
        let old = tables::lent_corner(corners, run, k);
        let new = corner_by(used, numbers, kind, old);
        let row = tables::corner_row(new);
        table_store::put(corners, tables::corner_place(run, k), &row);
    }
}

pub fn renumber(used: Used, numbers: &[u32], elements: &[u32], corners: &mut [u32])
    requires { ((i : ℕ) → i < used.elements → (element_in elements.now i).corners.first ≡ corners_upto elements.now i) × (corners_upto elements.now used.elements ≤ length corners.old) }
    ensures { corners.new ≡ sets corners.old 0 (runs_by used numbers.now elements.now corners.old used.elements) }
{
    for i in 0..used.elements {
        let e = table_asking::element_in(elements, i);
        renumber_run(used, numbers, corners, e.kind, e.corners);
    }
}
