// What is kept beside each live node, packed as they are.
ghost use Rattle.std.specs.Prelude.{◌≡◌, ◌+◌, ◌≤◌, ◌<◌};
ghost use Rattle.measures.specs.Boxes.{InOrder};
ghost use Rattle.partners.specs.Rows.{AllBlank, row_at, span, given, held, Sets, Holds, Spans, NewBox, RowsUp};

use crate::pair::Near;
use measures::boxes::Box;
use measures::measure::Tilted;
use measures::{boxes, measure};

// The box of each live node, a partner among the later ones, how far that one is, and a diameter to work with. Each has an array of its own: so the same work on many rows is straight code.
#[derive(Drop)]
pub struct Rows {
    pub low_u: [Tilted; 512],
    pub high_u: [Tilted; 512],
    pub low_v: [Tilted; 512],
    pub high_v: [Tilted; 512],
    pub far: [u32; 512],
    pub partner: [u32; 512],
    pub aside: [u32; 512],
}

impl Rows {
    // No row is kept yet.
    pub fn blank() -> Rows
        ensures { AllBlank result }
    {
        Rows {
            low_u: [measure::CORNER; 512],
            high_u: [measure::CORNER; 512],
            low_v: [measure::CORNER; 512],
            high_v: [measure::CORNER; 512],
            far: [0; 512],
            partner: [0; 512],
            aside: [0; 512],
        }
    }

    // The box of row t.
    pub fn box_in(&self, t: usize) -> Box
        requires { t < 512 }
        ensures { result ≡ (row_at self.now t).box }
    {
        Box {
            lu: self.low_u[t],
            hu: self.high_u[t],
            lv: self.low_v[t],
            hv: self.high_v[t],
        }
    }

    // The diameter of row t's union with a box. The box has its ends in order, so the union has. (It is asked and no invariant of the type, since a box that a caller from C keeps may be any four numbers.)
    #[tactic(auto, unfolding(crate::specs::Rows::span))]
    pub fn span(&self, t: usize, b: Box) -> u32
        requires { (t < 512) × InOrder b }
        ensures { result ≡ span (row_at self.now t) b }
    {
        boxes::breadth(boxes::hull(self.box_in(t), b))
    }

    // Row t, held against node m with box b. Both numbers are written in any case: so many rows at a time can be. (With `min` for the distance, or both chosen as a pair, a branch hangs on which is nearer where fewer than four rows are left: slower.)
    fn hold_row(&mut self, t: usize, b: Box, m: u32)
        requires { (t < 512) × InOrder b }
        ensures { Sets t (held b m (row_at self.old t)) self.old self.new }
    {
        let e = self.span(t, b);
        let kept = self.far[t];
        let at = self.partner[t];
        let nearer = e < kept;
        self.far[t] = if nearer { e } else { kept };
        self.partner[t] = if nearer { m } else { at };
    }

    // The first k rows, held against node m with box b.
    pub fn hold(&mut self, k: usize, b: Box, m: u32)
        requires { (k ≤ 512) × InOrder b }
        ensures { Holds k b m self.old self.new }
    {
        for t in 0..k {
            self.hold_row(t, b, m);
        }
    }

    // The diameters of the unions with a box, beside each row of a run. They are written first and looked at after: so many rows at a time can be.
    pub fn spans(&mut self, from: usize, to: usize, b: Box)
        requires { (from ≤ to) × (to ≤ 512) × InOrder b }
        ensures { Spans from to b self.old self.new }
    {
        for t in from..to {
            self.aside[t] = self.span(t, b);
        }
    }

    // Row t has another partner.
    pub fn give(&mut self, t: usize, q: Near)
        requires { (t < 512) × (q.at < 1024) }
        ensures { Sets t (given (row_at self.old t) q.at q.far) self.old self.new }
    {
        self.far[t] = q.far;
        self.partner[t] = q.at as u32;
    }

    // Row t's box. Its partner is whatever stood there.
    pub fn put_row(&mut self, t: usize, b: Box)
        requires { t < 512 }
        ensures { NewBox t b self.old self.new }
    {
        self.low_u[t] = b.lu;
        self.high_u[t] = b.hu;
        self.low_v[t] = b.lv;
        self.high_v[t] = b.hv;
    }

    // Row s, held against node m with box b, becomes row t. All numbers are written in any case, as when it is held where it stands.
    fn take_row(&mut self, t: usize, s: usize, b: Box, m: u32)
        requires { (t < 512) × (s < 512) × InOrder b }
        ensures { Sets t (held b m (row_at self.old s)) self.old self.new }
    {
        let e = self.span(s, b);
        let far = self.far[s];
        let at = self.partner[s];
        let nearer = e < far;
        self.put_row(t, self.box_in(s));
        self.far[t] = if nearer { e } else { far };
        self.partner[t] = if nearer { m } else { at };
    }

    // Each row of a run becomes the one D after it, held against node m with box b. How far rows move is a plain number: so many move at a time.
    pub fn take<const D: usize>(&mut self, from: usize, to: usize, b: Box, m: u32)
        requires { (from ≤ to) × (to + D ≤ 512) × InOrder b }
        ensures { RowsUp D from to b m self.old self.new }
    {
        for t in from..to {
            self.take_row(t, t + D, b, m);
        }
    }
}
