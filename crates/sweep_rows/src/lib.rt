// The records of one kind that no corner names removed from their table, and the corners renumbered.
#![tactic(auto)]

ghost use Rattle.std.specs.Prelude.{◌≡◌, ◌++◌, ◌+◌, ◌*◌, ◌≤◌, pos, length, take, drop};
ghost use Rattle.lists.specs.Lists.{filled};
ghost use Rattle.sweep_marks.specs.Counting.{kept_upto, new_numbers, kept_rows};
ghost use Rattle.sweep_marks.specs.Marks.{kind_of, named_in_tables};

use sweep_marks::{VertexTable, mark_elements, number_marks};

pub mod corners;
mod rows;

// Keeps the records of one table that a corner names: their rows from the front on, the rest 0, and in `numbers` the new
// number of each old record, or 0. How many are kept.
fn sweep_table(
    table: VertexTable,
    width: usize,
    elements: &[u32],
    count: u32,
    corners: &[u32],
    values: &mut [i32],
    numbers: &mut [u32],
) -> u32
    requires { (width * length numbers.old ≤ length values.old) × (width ≤ 4) × (length numbers.old ≤ 4294967295) }
    ensures { (result ≡ kept_upto (named_in_tables count elements.now corners.now (kind_of table)) (length numbers.old)) × (numbers.new ≡ new_numbers (named_in_tables count elements.now corners.now (kind_of table)) (length numbers.old)) × (values.new ≡ filled (length values.old) (pos 0) (kept_rows width (named_in_tables count elements.now corners.now (kind_of table)) values.old (length numbers.old))) }
{
    numbers.fill(0);
    mark_elements(table, elements, count, corners, numbers);
    let kept = number_marks(numbers);
    rows::move_rows(values, width, numbers);
    kept
}

// The same for a table of `n` records whose numbers stand from entry `from` of the list on.
pub fn sweep_part(
    table: VertexTable,
    width: usize,
    elements: &[u32],
    count: u32,
    corners: &[u32],
    values: &mut [i32],
    numbers: &mut [u32],
    from: usize,
    n: u32,
) -> u32
    requires { (from + n ≤ length numbers.old) × (width * n ≤ length values.old) × (width ≤ 4) }
    ensures { (result ≡ kept_upto (named_in_tables count elements.now corners.now (kind_of table)) n) × (numbers.new ≡ take from numbers.old ++ (new_numbers (named_in_tables count elements.now corners.now (kind_of table)) n ++ drop (from + n) numbers.old)) × (values.new ≡ filled (length values.old) (pos 0) (kept_rows width (named_in_tables count elements.now corners.now (kind_of table)) values.old n)) }
{
    let end = from + n as usize;
    sweep_table(
        table,
        width,
        elements,
        count,
        corners,
        values,
        &mut numbers[from..end],
    )
}
