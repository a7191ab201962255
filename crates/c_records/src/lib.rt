// The answers as C and Rust get them: each case of an answer as a record of numbers; and a choice that they name by a number.
#![tactic(auto)]

ghost use Rattle.std.specs.Prelude.{◌≡◌, pos};
ghost use Rattle.model.specs.Layout.{none_used};
ghost use Rattle.reader.specs.Reading.{read_outcome};
ghost use Rattle.tidier.specs.Tidying.{tidy_outcome};
ghost use Rattle.sampler.specs.Answers.{point_outcome, run_outcome};
ghost use Rattle.polyline.specs.Answers.{polyline_outcome};
ghost use Rattle.sweep.specs.Swept.{none_dropped, sweep_outcome};
ghost use Rattle.c_records.specs.Answers.{read_in, tidy_in, weights_in, point_in, run_in, polyline_in, sweep_in};

use refusals::{Reason, Refusal};
use sweep::{Dropped, Swept};
use tables::Used;
use tidier::{Tidied, TidyError};
use tidy_form::Weights;

// What reading comes to: the used counts, or a refusal at a place where `refusal` is not 0.
#[repr(C)]
#[derive(Clone, Copy)]
pub struct ReadRecord {
    pub refusal: u32,
    pub place: usize,
    pub used: Used,
}

// What tidying comes to: the tidy text's length and the used counts, or a refusal at a place; with 16 the counts, and the length that is needed.
#[repr(C)]
#[derive(Clone, Copy)]
pub struct TidyRecord {
    pub refusal: u32,
    pub place: usize,
    pub length: usize,
    pub needed: usize,
    pub used: Used,
}

// Three axes are x, y, z; two are u, v, in x and y. Refused where `refusal` is not 0.
#[repr(C)]
#[derive(Clone, Copy)]
pub struct Point {
    pub refusal: u32,
    pub axes: u32,
    pub x: i32,
    pub y: i32,
    pub z: i32,
}

// How many numbers a run wrote. Refused where `refusal` is not 0.
#[repr(C)]
#[derive(Clone, Copy)]
pub struct Run {
    pub refusal: u32,
    pub numbers: usize,
}

// How many points a polyline wrote. Refused where `refusal` is not 0.
#[repr(C)]
#[derive(Clone, Copy)]
pub struct PolylinePoints {
    pub refusal: u32,
    pub points: u32,
}

// The used counts after a sweep, and how many records of each kind it dropped. Refused where `refusal` is not 0: every count is 0 then.
#[repr(C)]
#[derive(Clone, Copy)]
pub struct SweepCounts {
    pub refusal: u32,
    pub used: Used,
    pub dropped: Dropped,
}

const NOTHING_USED: Used = Used {
    v: 0,
    vt: 0,
    vn: 0,
    vp: 0,
    corners: 0,
    elements: 0,
    bodies: 0,
    parameters: 0,
    loops: 0,
};

const NOTHING_DROPPED: Dropped = Dropped {
    v: 0,
    vt: 0,
    vn: 0,
    vp: 0,
};

impl ReadRecord {
    // A refusal of any number, at its place.
    pub fn refused(number: u32, place: usize) -> ReadRecord
        ensures { (result.refusal ≡ number) × (result.place ≡ place) × (result.used ≡ none_used) }
    {
        ReadRecord {
            refusal: number,
            place,
            used: NOTHING_USED,
        }
    }
}

impl From<Result<Used, Refusal>> for ReadRecord {
    ghost from_gives = { λ answer r. r ≡ read_in (read_outcome answer) };

    fn from(answer: Result<Used, Refusal>) -> ReadRecord {
        match answer {
            Ok(used) => ReadRecord {
                refusal: 0,
                place: 0,
                used,
            },
            Err(refusal) => ReadRecord::refused(refusal.reason.number(), refusal.place),
        }
    }
}

// The choice of weights of that number: 1 is always, any other is when needed.
pub fn weights_of(number: u32) -> Weights
    ensures { result ≡ weights_in number }
{
    match number {
        1 => Weights::Always,
        _ => Weights::WhenNeeded,
    }
}

impl TidyRecord {
    // A refusal of any number, at its place.
    pub fn refused(untidied: u32, at: usize) -> TidyRecord
        ensures { (result.refusal ≡ untidied) × (result.place ≡ at) × (result.length ≡ 0) × (result.needed ≡ 0) × (result.used ≡ none_used) }
    {
        TidyRecord {
            refusal: untidied,
            place: at,
            length: 0,
            needed: 0,
            used: NOTHING_USED,
        }
    }
}

impl From<Result<Tidied, TidyError>> for TidyRecord {
    ghost from_gives = { λ answer r. r ≡ tidy_in (tidy_outcome answer) };

    fn from(answer: Result<Tidied, TidyError>) -> TidyRecord {
        match answer {
            Ok(text) => TidyRecord {
                refusal: 0,
                place: 0,
                length: text.length,
                needed: 0,
                used: text.used,
            },
            Err(TidyError::TooLong { needed, used }) => TidyRecord {
                refusal: Reason::NoOutputRoom.number(),
                place: 0,
                length: 0,
                needed,
                used,
            },
            Err(TidyError::Refused(stopped)) => {
                TidyRecord::refused(stopped.reason.number(), stopped.place)
            }
        }
    }
}

impl Point {
    // A refusal of any number.
    pub fn refused(unsampled: u32) -> Point
        ensures { (result.refusal ≡ unsampled) × (result.axes ≡ 0) × (result.x ≡ pos 0) × (result.y ≡ pos 0) × (result.z ≡ pos 0) }
    {
        Point {
            refusal: unsampled,
            axes: 0,
            x: 0,
            y: 0,
            z: 0,
        }
    }
}

impl From<Result<sampler::Point, Reason>> for Point {
    ghost from_gives = { λ answer r. r ≡ point_in (point_outcome answer) };

    fn from(answer: Result<sampler::Point, Reason>) -> Point {
        match answer {
            Ok(sampler::Point::Space { x, y, z }) => Point {
                refusal: 0,
                axes: 3,
                x,
                y,
                z,
            },
            Ok(sampler::Point::Plane { u, v }) => Point {
                refusal: 0,
                axes: 2,
                x: u,
                y: v,
                z: 0,
            },
            Err(reason) => Point::refused(reason.number()),
        }
    }
}

impl Run {
    // A refusal of any number.
    pub fn refused(unfilled: u32) -> Run
        ensures { (result.refusal ≡ unfilled) × (result.numbers ≡ 0) }
    {
        Run {
            refusal: unfilled,
            numbers: 0,
        }
    }
}

impl From<Result<usize, Reason>> for Run {
    ghost from_gives = { λ answer r. r ≡ run_in (run_outcome answer) };

    fn from(answer: Result<usize, Reason>) -> Run {
        match answer {
            Ok(numbers) => Run {
                refusal: 0,
                numbers,
            },
            Err(reason) => Run::refused(reason.number()),
        }
    }
}

impl PolylinePoints {
    // A refusal of any number.
    pub fn refused(uncut: u32) -> PolylinePoints
        ensures { (result.refusal ≡ uncut) × (result.points ≡ 0) }
    {
        PolylinePoints {
            refusal: uncut,
            points: 0,
        }
    }
}

impl From<Result<u32, Reason>> for PolylinePoints {
    ghost from_gives = { λ answer r. r ≡ polyline_in (polyline_outcome answer) };

    fn from(answer: Result<u32, Reason>) -> PolylinePoints {
        match answer {
            Ok(points) => PolylinePoints { refusal: 0, points },
            Err(reason) => PolylinePoints::refused(reason.number()),
        }
    }
}

impl SweepCounts {
    // A refusal of any number.
    pub fn refused(unswept: u32) -> SweepCounts
        ensures { (result.refusal ≡ unswept) × (result.used ≡ none_used) × (result.dropped ≡ none_dropped) }
    {
        SweepCounts {
            refusal: unswept,
            used: NOTHING_USED,
            dropped: NOTHING_DROPPED,
        }
    }
}

impl From<Result<Swept, Reason>> for SweepCounts {
    ghost from_gives = { λ answer r. r ≡ sweep_in (sweep_outcome answer) };

    fn from(answer: Result<Swept, Reason>) -> SweepCounts {
        match answer {
            Ok(swept) => SweepCounts {
                refusal: 0,
                used: swept.used,
                dropped: swept.dropped,
            },
            Err(reason) => SweepCounts::refused(reason.number()),
        }
    }
}
