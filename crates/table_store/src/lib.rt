// Storing a record's numbers in the lent tables.
#![tactic(auto)]

ghost use Rattle.std.specs.Prelude.{◌≡◌, cond, ◌+◌, leb, length};
ghost use Rattle.std.proofs.lemmas.List.Edits.{sets};

// Stores a record's numbers from entry `at` on and answers true, or answers false and stores nothing where they pass the
// lent length. A loop, and not `copy_from_slice`: by that a row lay in memory in pieces and was read back as one number,
// for which the processor waits.
pub fn put<T: Copy>(entries: &mut [T], at: usize, row: &[T]) -> bool
    ensures value { result ≡ leb (at + length row.now) (length entries.old) }
    ensures entries_after { entries.new ≡ cond result (sets entries.old at row.now) entries.old }
{
    if entries.len() < at || entries.len() - at < row.len() {
        return false;
    }
    for i in 0..row.len() {
        entries[at + i] = row[i];
    }
    true
}
