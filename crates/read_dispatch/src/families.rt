// Statements by the function that takes their line: settings together, trim and hole together, so that each function is called at one place alone and is
// compiled into it.
ghost use Rattle.std.specs.Prelude.{◌≡◌};
ghost use Rattle.keywords.specs.Lookup.{of_letter};
ghost use Rattle.read_dispatch.specs.Taking.{family_of};

use read_element_lines::setting_lines::Setting;
use statements::{Free, Shape, VertexKind};

#[derive(Clone, Copy)]
pub enum Family {
    Vertex(VertexKind),
    Element(Shape),
    Body(Free),
    Parameters,
    Loop { hole: bool },
    End,
    Set(Setting),
    Other,
}

// By the letter of its keyword's row.
pub fn family_of(letter: u8) -> Family
    ensures { result ≡ family_of (of_letter letter) }
{
    match letter {
        b'A' => Family::Vertex(VertexKind::Geometric),
        b'B' => Family::Vertex(VertexKind::Texture),
        b'C' => Family::Vertex(VertexKind::Normal),
        b'D' => Family::Vertex(VertexKind::Parametric),
        b'E' => Family::Set(Setting::BodyType),
        b'F' => Family::Set(Setting::Degree),
        b'G' => Family::Element(Shape::Point),
        b'H' => Family::Element(Shape::Line),
        b'I' => Family::Element(Shape::Face),
        b'J' => Family::Body(Free::Curve),
        b'K' => Family::Body(Free::Curve2),
        b'L' => Family::Body(Free::Surface),
        b'M' => Family::Parameters,
        b'N' => Family::Loop { hole: false },
        b'O' => Family::Loop { hole: true },
        b'P' => Family::End,
        b'Q' => Family::Set(Setting::Group),
        b'R' => Family::Set(Setting::Smoothing),
        b'S' => Family::Set(Setting::Material),
        b'-' => Family::Set(Setting::PassedOver),
        b'!' => Family::Other,
        _ => Family::Other,
    }
}
