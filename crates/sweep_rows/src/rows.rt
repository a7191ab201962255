// The kept records of one kind moved to the front of their table.
ghost use Rattle.std.specs.Prelude.{◌≡◌, cond, ◌+◌, ◌*◌, ◌≤◌, ◌<◌, eqb, pos, length, take, drop};
ghost use Rattle.std.proofs.lemmas.List.Edits.{sets};
ghost use Rattle.lists.specs.Lists.{filled};
ghost use Rattle.sweep_marks.specs.Counting.{kept_rows};
ghost use Rattle.sweep_marks.specs.Marks.{marked_in};

// Row `i` moved to row `to` if it has a number; how many rows are kept then.
fn move_row(values: &mut [i32], width: usize, number: u32, i: usize, to: usize) -> usize
    requires { (to ≤ i) × (width * i + width ≤ length values.old) × (i < 4294967295) × (width ≤ 4) }
    ensures { (result ≡ to + cond (eqb number 0) 0 1) × (values.new ≡ cond (eqb number 0) values.old (sets values.old (width * to) (take width (drop (width * i) values.old)))) }
{
    if number == 0 {
        return to;
    }
    let from = width * i;
    values.copy_within(from..from + width, width * to);
    to + 1
}

// The rows whose number is not 0, one after the other from the front on; the rest is cleared.
pub fn move_rows(values: &mut [i32], width: usize, numbers: &[u32])
    requires { (width * length numbers.now ≤ length values.old) × (width ≤ 4) × (length numbers.now ≤ 4294967295) }
    ensures { values.new ≡ filled (length values.old) (pos 0) (kept_rows width (marked_in numbers.now) values.old (length numbers.now)) }
{
    let mut to = 0;
    for (i, number) in numbers.iter().enumerate() {
        to = move_row(values, width, *number, i, to);
    }
    let rest = width * to;
    values[rest..].fill(0);
}
