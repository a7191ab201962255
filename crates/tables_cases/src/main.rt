// Asking and storing on tables made by hand, with numbers that no reading gives.
#![tactic(auto)]

use std::io;
use tables::Used;

// Twelve numbers of corners, four elements and three bodies are used.
fn used() -> Used {
    Used {
        v: 4,
        vt: 0,
        vn: 0,
        vp: 0,
        corners: 12,
        elements: 4,
        bodies: 3,
        parameters: 0,
        loops: 0,
    }
}

fn ask_corner(
    rt: &impl Print,
    elements: &[u32],
    corners: &[u32],
    element: u32,
    k: u32,
) -> io::Result<()> {
    let corner = table_asking::corner_of(used(), elements, corners, element, k);
    println!(rt;
        "corner {element} {k} is {} {} {} ",
        corner.v, corner.vt, corner.vn
    )
}

fn ask_names(rt: &impl Print, text: &[u8], elements: &[u32], element: u32) -> io::Result<()> {
    print!(rt; "names {element} are [")?;
    rt.write_all(table_asking::group_of(text, used(), elements, element))?;
    print!(rt; "] [")?;
    rt.write_all(table_asking::material_of(text, used(), elements, element))?;
    println!(rt; "]")
}

fn ask_body(rt: &impl Print, bodies: &[u32], ranges: &[i32], body: u32) -> io::Result<()> {
    let b = table_asking::body_of(used(), bodies, ranges, body);
    print!(rt;
        "body {body} is {} {} {} {} ",
        b.basis, b.rational, b.degree_u, b.degree_v
    )?;
    print!(rt; "{} {} {} ", b.first_parameter, b.count_u, b.count_v)?;
    print!(rt; "{} {} ", b.first_loop, b.loops)?;
    println!(rt; "{} {} {} {} ", b.start_u, b.end_u, b.start_v, b.end_v)
}

fn ask_stored(rt: &impl Print, t: &mut [u32], at: usize) -> io::Result<()> {
    if table_store::put(t, at, &[7, 8, 4294967295]) {
        println!(rt; "stored")
    } else {
        println!(rt; "no room")
    }
}

fn stores(rt: &impl Print) -> io::Result<()> {
    let mut t = [1u32; 4];
    for at in [2, 18446744073709551615, 1] {
        ask_stored(rt, &mut t, at)?;
    }
    print!(rt; "{} {} {} {} ", t[0], t[1], t[2], t[3])?;
    t.fill(0);
    println!(rt; "{} {} ", t[0], t[3])
}

fn main(rt: HostRuntime) -> io::Result<()> {
    let text = b"g top left\nusemtl oak";
    // The fourth element is used, but its record passes what is lent.
    let elements: [u32; 35] = [
        3, 0, 3, 0, 0, 2, 8, 18, 3, // a face with a group of two names and a material
        1, 9, 2, 0, 0, 0, 0, 19, 3, // a second corner past the used ones; a material past the text
        2, 4294967295, 4294967295, 0, 0, 4294967295, 4294967295, 21, 0, // places past everything
        1, 0, 3, 0, 0, 0, 1, 0, // cut off
    ];
    let places: [u32; 15] = [1, 2, 3, 4, 0, 6, 7, 8, 0, 10, 0, 0, 13, 14, 15];
    // The third body is used and lent, but not its range.
    let records: [u32; 27] = [
        2, 1, 3, 0, 4, 8, 0, 0, 0, // a rational curve
        1, 0, 2, 4294967295, 0, 3, 2, 5, 1, // a surface
        1, 0, 1, 0, 0, 2, 0, 0, 0,
    ];
    let ends: [i32; 11] = [7, 2147483647, 0, 0, -5, 5, 0, 9, 1, 2, 0];
    for (element, k) in [
        (1, 0),
        (1, 2),
        (1, 3),
        (1, 4294967295),
        (2, 0),
        (2, 1),
        (3, 0),
        (3, 4294967294),
        (0, 0),
        (4, 0),
        (5, 0),
        (4294967295, 0),
    ] {
        ask_corner(&rt, &elements, &places, element, k)?;
    }
    for element in [1, 2, 3, 0, 4, 4294967295] {
        ask_names(&rt, text, &elements, element)?;
    }
    for body in [1, 2, 0, 3, 4, 4294967295] {
        ask_body(&rt, &records, &ends, body)?;
    }
    stores(&rt)
}
