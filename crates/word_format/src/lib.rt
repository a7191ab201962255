// The words of the tidy text, each measured and written: 01, "The tidy text".
#![tactic(auto)]

ghost use Rattle.std.specs.Prelude.{◌≡◌, [], ◌∷◌, ◌+◌, ◌≤◌, ◌<◌, nat_abs, length};
ghost use Rattle.std.proofs.lemmas.List.Edits.{sets};
ghost use Rattle.references.specs.Written.{full, written_whole, written_millionths, written_number, written_corner};
ghost use Rattle.word_format.specs.Parts.{written_part, written_parts};

// One byte, a blank or a line's end, at `at` of `out`; the place after it.
pub fn put_byte(out: &mut [u8], at: usize, b: u8) -> usize
    requires { at < length out.old }
    ensures { (result ≡ at + 1) × (out.new ≡ sets out.old at (b ∷ [])) }
{
    out[at] = b;
    at + 1
}

fn digit(n: u32) -> u8
    requires { n < 10 }
    ensures { result ≡ n + 48 }
{
    n as u8 + 48
}

// n in `count` digits.
fn write_digits(out: &mut [u8], at: usize, count: usize, n: u32) -> usize
    requires { at + count ≤ length out.old }
    ensures { (result ≡ at + count) × (out.new ≡ sets out.old at (full count n)) }
{
    let mut m = n;
    for k in 0..count {
        out[at + (count - k - 1)] = digit(m % 10);
        m /= 10;
    }
    at + count
}

// How many digits n has. A while: the count is what it finds.
pub fn whole_length(n: u32) -> usize
    ensures { result ≡ length (written_whole n) }
{
    let mut count: usize = 1;
    let mut m = n;
    while 10 <= m {
        m /= 10;
        count += 1;
    }
    count
}

// A whole number, written to `at` of `out`; the place after it.
pub fn write_whole(out: &mut [u8], at: usize, n: u32) -> usize
    requires { at + length (written_whole n) ≤ length out.old }
    ensures { (result ≡ at + length (written_whole n)) × (out.new ≡ sets out.old at (written_whole n)) }
{
    let count = whole_length(n);
    write_digits(out, at, count, n)
}

// How far a number is from zero: 2,147,483,648 too.
pub fn magnitude(value: i32) -> u32
    ensures { result ≡ nat_abs value }
{
    value.unsigned_abs()
}

fn write_millionths(out: &mut [u8], at: usize, m: u32) -> usize
    requires { at + length (written_millionths m) ≤ length out.old }
    ensures { (result ≡ at + length (written_millionths m)) × (out.new ≡ sets out.old at (written_millionths m)) }
{
    let point = write_whole(out, at, m / 1_000_000);
    let places = put_byte(out, point, b'.');
    write_digits(out, places, 6, m % 1_000_000)
}

// How many bytes a number of millionths has.
pub fn number_length(value: i32) -> usize
    ensures { result ≡ length (written_number value) }
{
    let bare = whole_length(magnitude(value) / 1_000_000) + 7;
    if value < 0 {
        return bare + 1;
    }
    bare
}

// A number of millionths, written to `at` of `out`; the place after it.
pub fn write_number(out: &mut [u8], at: usize, value: i32) -> usize
    requires { at + length (written_number value) ≤ length out.old }
    ensures { (result ≡ at + length (written_number value)) × (out.new ≡ sets out.old at (written_number value)) }
{
    let m = magnitude(value);
    if value < 0 { // zero has no minus
        let first = put_byte(out, at, b'-');
        return write_millionths(out, first, m);
    }
    write_millionths(out, at, m)
}

// A slash, and a part that is there.
fn write_part(out: &mut [u8], at: usize, n: u32) -> usize
    requires { at + length (written_part n) ≤ length out.old }
    ensures { (result ≡ at + length (written_part n)) × (out.new ≡ sets out.old at (written_part n)) }
{
    let first = put_byte(out, at, b'/');
    write_whole(out, first, n)
}

fn parts_length(vt: u32, vn: u32) -> usize
    ensures { result ≡ length (written_parts vt vn) }
{
    if vn == 0 {
        if vt == 0 {
            return 0;
        }
        return 1 + whole_length(vt);
    }
    if vt == 0 {
        return 2 + whole_length(vn);
    }
    1 + whole_length(vt) + 1 + whole_length(vn)
}

// What stands after a corner's vertex.
fn write_parts(out: &mut [u8], at: usize, vt: u32, vn: u32) -> usize
    requires { at + length (written_parts vt vn) ≤ length out.old }
    ensures { (result ≡ at + length (written_parts vt vn)) × (out.new ≡ sets out.old at (written_parts vt vn)) }
{
    if vn == 0 {
        if vt == 0 {
            return at;
        }
        return write_part(out, at, vt);
    }
    if vt == 0 {
        let second = put_byte(out, at, b'/');
        return write_part(out, second, vn);
    }
    let second = write_part(out, at, vt);
    write_part(out, second, vn)
}

// How many bytes a corner has.
pub fn corner_length(v: u32, vt: u32, vn: u32) -> usize
    ensures { result ≡ length (written_corner (record { v = v; vt = vt; vn = vn })) }
{
    whole_length(v) + parts_length(vt, vn)
}

// A corner, written to `at` of `out`; the place after it.
pub fn write_corner(out: &mut [u8], at: usize, v: u32, vt: u32, vn: u32) -> usize
    requires { at + length (written_corner (record { v = v; vt = vt; vn = vn })) ≤ length out.old }
    ensures { (result ≡ at + length (written_corner (record { v = v; vt = vt; vn = vn }))) × (out.new ≡ sets out.old at (written_corner (record { v = v; vt = vt; vn = vn }))) }
{
    let second = write_whole(out, at, v);
    write_parts(out, second, vt, vn)
}
