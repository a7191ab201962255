// The lines of elements, bodies and settings: those that no body lets in.
#![tactic(auto)]

pub mod element_lines; // p, l, f
pub mod body_lines; // curv, curv2, surf
pub mod setting_lines; // cstype, deg, g, s, usemtl and what is passed over
