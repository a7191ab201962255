// The eleven lent tables together: to be asked, and to be filled.
ghost use Rattle.std.specs.Prelude.{◌≡◌};
ghost use Rattle.tables.specs.Tables.{zeros};
ghost use Rattle.tables.specs.Lent.{lent, lent_mut, SameSlices};

#[derive(Clone, Copy)]
pub struct Tables<'a> {
    pub v: &'a [i32],
    pub vt: &'a [i32],
    pub vn: &'a [i32],
    pub vp: &'a [i32],
    pub corners: &'a [u32],
    pub elements: &'a [u32],
    pub bodies: &'a [u32],
    pub ranges: &'a [i32],
    pub parameters: &'a [i32],
    pub loops: &'a [u32],
    pub spans: &'a [i32],
}

#[derive(Drop)]
pub struct TablesMut<'a> {
    pub v: &'a mut [i32],
    pub vt: &'a mut [i32],
    pub vn: &'a mut [i32],
    pub vp: &'a mut [i32],
    pub corners: &'a mut [u32],
    pub elements: &'a mut [u32],
    pub bodies: &'a mut [u32],
    pub ranges: &'a mut [i32],
    pub parameters: &'a mut [i32],
    pub loops: &'a mut [u32],
    pub spans: &'a mut [i32],
}

impl<'a> TablesMut<'a> {
    // The same tables, to be asked.
    pub fn shared(&self) -> Tables<'_>
        ensures { lent result ≡ lent_mut self.now }
    {
        Tables {
            v: self.v,
            vt: self.vt,
            vn: self.vn,
            vp: self.vp,
            corners: self.corners,
            elements: self.elements,
            bodies: self.bodies,
            ranges: self.ranges,
            parameters: self.parameters,
            loops: self.loops,
            spans: self.spans,
        }
    }

    // All zeros.
    pub fn clear(&mut self)
        ensures zeros { lent_mut self.new ≡ zeros (lent_mut self.old) }
        ensures same { SameSlices self.old self.new }
    {
        self.v.fill(0);
        self.vt.fill(0);
        self.vn.fill(0);
        self.vp.fill(0);
        self.corners.fill(0);
        self.elements.fill(0);
        self.bodies.fill(0);
        self.ranges.fill(0);
        self.parameters.fill(0);
        self.loops.fill(0);
        self.spans.fill(0);
    }
}
