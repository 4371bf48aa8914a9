// One condition: the values of the curves, the curve that is raised, and what the others lose.
#![tactic(auto)]

ghost use Rattle.std.specs.Prelude.{MatchOption, ◌≡◌, ℕ, ◌+◌, ◌*◌, ◌<◌, ◌≤◌, length, get_or, replicate};
ghost use Rattle.slots.specs.Slot.{slot, curve_at, Started};
ghost use Rattle.condition.specs.Valued.{valued};
ghost use Rattle.condition.specs.Kept.{Fit, First, Quiet, Met};

use slots::{raise, start, sweep};
use weights::{Curve, ROWS, Shape, value};

// Of the curves that are alive and whose value is not zero, the one of the least leading term.
pub fn pivot(shape: Shape, leads: &[usize], values: &[u16]) -> Option<usize>
    requires { (shape.l < length leads.now) × (shape.l < length values.now) × Fit shape.k shape.w shape.l leads.now }
    ensures { MatchOption result (Quiet shape.k shape.w shape.l leads.now values.now) (First shape.k shape.w shape.l leads.now values.now) }
{
    let mut best = None;
    let mut least = shape.w;
    for j in 0..shape.l + 1 {
        let weight = leads[j] + j * (shape.k - 1);
        if values[j] != 0 && weight < least {
            best = Some(j);
            least = weight;
        }
    }
    best
}

// The finder's curves, of one shape: the column of each one's leading term, and their numbers in the slots of a lent buffer.
#[derive(Drop)]
pub struct Basis<'a> {
    pub shape: Shape,
    pub leads: [usize; ROWS],
    pub work: &'a mut [u16],
    pub ghost fit: { Fit shape.k shape.w shape.l leads },
    pub ghost room: { (shape.l + 1) * slot shape.w shape.l ≤ length work.now },
}

impl<'a> Basis<'a> {
    // The powers of y, before any condition.
    pub fn new(shape: Shape, work: &'a mut [u16]) -> Basis<'a>
        requires { (shape.l + 1) * slot shape.w shape.l ≤ length work.old }
        ensures same { result.shape ≡ shape }
        ensures lent { result.work.ghost_name ≡ work.entry.ghost_name }
        ensures long { length result.work.now ≡ length work.old }
        ensures leads { result.leads ≡ replicate 25 0 }
        ensures started { Started shape.w shape.l result.work.now }
    {
        start(shape, work);
        Basis {
            shape,
            leads: [0; ROWS],
            work,
        }
    }

    // Curve j.
    pub fn curve(&self, j: usize) -> Curve<'_>
        requires { j ≤ self.now.shape.l }
        ensures same { result.shape ≡ self.now.shape }
        ensures numbers { result.numbers.now ≡ curve_at self.now.shape.w self.now.shape.l self.now.work.now j }
    {
        let shape = self.shape;
        let size = shape.size();
        let at = j * size;
        let numbers = &self.work[at..at + size];
        Curve { shape, numbers }
    }

    // The values of a condition at the curves that are alive, and 0 for the others; l is at most 24. x and y are the weights of the condition.
    fn evaluate(&self, x: &[u16], y: &[u16]) -> [u16; ROWS]
        requires { (length x.now ≡ self.now.shape.w) × (length y.now ≡ self.now.shape.l + 1) }
        ensures { (j : ℕ) → j < self.now.shape.l + 1 → get_or result j 0
            ≡ valued self.now.shape.field.q self.now.shape.k self.now.shape.w self.now.shape.l x.now y.now self.now.leads self.now.work.now j }
    {
        let shape = self.shape;
        let mut values = [0; ROWS];
        for j in 0..shape.l + 1 {
            if self.leads[j] + j * (shape.k - 1) < shape.w {
                values[j] = value(self.curve(j), x, y);
            }
        }
        values
    }

    // Of its curves that are alive and whose value is not zero, the one of the least leading term.
    pub fn pivot(&self, values: &[u16]) -> Option<usize>
        requires { self.now.shape.l < length values.now }
        ensures { MatchOption result (Quiet self.now.shape.k self.now.shape.w self.now.shape.l self.now.leads values.now)
            (First self.now.shape.k self.now.shape.w self.now.shape.l self.now.leads values.now) }
    {
        pivot(self.shape, &self.leads, values)
    }

    // One condition, whose weights are x and y: every other curve that misses it loses the multiple of the pivot that makes it meet it,
    // and the pivot is multiplied by x − α.
    pub fn condition(&mut self, alpha: u16, x: &[u16], y: &[u16])
        requires { (length x.now ≡ self.old.shape.w) × (length y.now ≡ self.old.shape.l + 1) }
        ensures same { self.new.shape ≡ self.old.shape }
        ensures lent { self.new.work.ghost_name ≡ self.old.work.ghost_name }
        ensures long { length self.new.work.now ≡ length self.old.work.now }
        ensures met { Met self.old.shape.field.q self.old.shape.k self.old.shape.w self.old.shape.l alpha x.now y.now
            self.old.leads self.new.leads self.old.work.now self.new.work.now }
    {
        let shape = self.shape;
        let mut values = self.evaluate(x, y);
        if let Some(p) = self.pivot(&values) {
            let over = shape.field.inverse(values[p]);
            values[p] = 0;
            sweep(shape, p, over, &values, self.work);
            raise(shape, alpha, self.work, p * shape.size());
            self.leads[p] += 1;
        }
    }
}
