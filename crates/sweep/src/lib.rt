// The retention sweep (Q-6): every v, vt, vn and vp that no corner names is removed, the gaps are closed and the corners renumbered.
#![tactic(auto)]

ghost use Rattle.std.specs.Prelude.{◌≡◌, ◌≤◌};
ghost use Rattle.tables.specs.Lent.{lent, lent_mut, SameSlices, SameLengths};
ghost use Rattle.sweep.specs.Swept.{sweep_answer, sweep_into};
ghost use Rattle.sweep.specs.Vertices.{fewer, sweep_refusal};

use crate::rest::clear_rest;
use crate::vertices::sweep_named;
use refusals::Reason;
use table_rules::whole_obeys;
use tables::{Tables, TablesMut, Used};

mod rest;
mod vertices;

// How many records of each kind were dropped.
#[repr(C)]
#[derive(Clone, Copy)]
pub struct Dropped {
    pub v: u32,
    pub vt: u32,
    pub vn: u32,
    pub vp: u32,
}

// The used counts after the sweep, and what was dropped.
#[derive(Clone, Copy)]
pub struct Swept {
    pub used: Used,
    pub dropped: Dropped,
}

// Why nothing is changed, with a list of `room` entries.
#[tactic(auto, unfolding(crate::specs::Vertices::sweep_refusal))]
fn refusal_of(used: Used, t: &Tables, room: usize) -> Result<(), Reason>
    ensures { result ≡ sweep_refusal used (lent t.now) room }
{
    if !whole_obeys(used, t) {
        return Err(Reason::BrokenRecord);
    }
    if room < used.v as usize + used.vt as usize + used.vn as usize + used.vp as usize {
        return Err(Reason::NoOutputRoom);
    }
    Ok(())
}

fn dropped_of(before: Used, after: Used) -> Dropped
    requires { (after.v ≤ before.v) × (after.vt ≤ before.vt) × (after.vn ≤ before.vn) × (after.vp ≤ before.vp) }
    ensures { result ≡ fewer before after }
{
    Dropped {
        v: before.v - after.v,
        vt: before.vt - after.vt,
        vn: before.vn - after.vn,
        vp: before.vp - after.vp,
    }
}

// Removes every record that no corner names. `numbers` gets the new number of each old record, all v, then vt, vn, vp, or 0.
pub fn sweep(used: Used, t: &mut TablesMut, numbers: &mut [u32]) -> Result<Swept, Reason>
    ensures answer { sweep_answer result (lent_mut t.new) numbers.new ≡ sweep_into used (lent_mut t.old) numbers.old }
    ensures same { SameSlices t.old t.new }
    ensures lengths { SameLengths t.old t.new }
{
    refusal_of(used, &t.shared(), numbers.len())?;
    let after = sweep_named(used, t.v, t.vt, t.vn, t.vp, t.corners, t.elements, numbers);
    clear_rest(used, t);
    Ok(Swept {
        used: after,
        dropped: dropped_of(used, after),
    })
}
