// Whole numbers as doubles, and the rounding rule guessed in them: a guess is kept only where it is certain.
#![tactic(auto)]

ghost use Rattle.std.specs.Prelude.{◌≡◌, nat_abs, ◌-ℤ◌, ◌≤ℤ◌, ◌<ℤ◌};
ghost use Rattle.rounding.specs.Range.{InRange};
ghost use Rattle.doubles.specs.Doubles.{Encoding, encode, decode, weight_of, blend};

// z beside the anchor, from which on doubles lie 1 apart.
pub fn encode(z: i32) -> f64
    requires { InRange z }
    ensures { result ≡ encode z }
{
    z as f64 + 6755399441055744.0
}

// The number that a double keeps.
pub fn decode(a: f64) -> i32
    requires { Encoding a }
    ensures { (result ≡ decode a) × InRange result }
{
    (a - 6755399441055744.0) as i32
}

// How much of the way from `low` to `high` lies before t.
pub fn weight(low: i32, high: i32, t: i32) -> f64
    requires { (low ≤ℤ t) × (low <ℤ high) × InRange low × InRange high × InRange t }
    ensures { result ≡ weight_of (nat_abs (t -ℤ low)) (nat_abs (high -ℤ low)) }
{
    (t as f64 - low as f64) / (high as f64 - low as f64)
}

// From a towards b by the weight w, and e further.
pub fn blend(a: f64, b: f64, w: f64, e: f64) -> f64
    ensures { result ≡ blend a b w e }
{
    a + ((b - a) * w + e)
}
