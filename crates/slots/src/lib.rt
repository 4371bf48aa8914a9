// Curves in the slots of one buffer: where they start, and what a step does to them.
#![tactic(auto)]

ghost use Rattle.std.specs.Prelude.{◌+◌, ◌*◌, ◌<◌, ◌≤◌, ◌≡◌, length, get_or};
ghost use Rattle.rules.specs.Field.{minus};
ghost use Rattle.within.specs.Runs.{RunsApart};
ghost use Rattle.slots.specs.Slot.{slot, mixed_at, raised_at, Treated, Started, Swept};

use weights::Shape;
use within::{add_within, shift_add};

// Curve j becomes y^j, for each j up to l.
pub fn start(shape: Shape, work: &mut [u16])
    requires { (shape.l + 1) * slot shape.w shape.l ≤ length work.old }
    ensures { Started shape.w shape.l work.new }
{
    let size = shape.size();
    let e = (shape.l + 1) * size;
    work[..e].fill(0);
    for j in 0..shape.l + 1 {
        work[j * size + j * shape.w] = 1;
    }
}

// The curve from `to` on becomes itself plus c times the curve from `from` on.
fn reduce(shape: Shape, c: u16, work: &mut [u16], from: usize, to: usize)
    requires { RunsApart from to (slot shape.w shape.l) × (from + slot shape.w shape.l ≤ length work.old) × (to + slot shape.w shape.l ≤ length work.old) }
    ensures { Treated (mixed_at shape.field.q c shape.w work.old from to) to shape.k shape.w (shape.l + 1) work.old work.new }
{
    for t in 0..shape.l + 1 {
        let at = t * shape.w;
        add_within(shape.field, c, work, from + at, to + at, shape.row(t));
    }
}

// The curve from `at` on is multiplied by x − α.
pub fn raise(shape: Shape, alpha: u16, work: &mut [u16], at: usize)
    requires { at + slot shape.w shape.l ≤ length work.old }
    ensures { Treated (raised_at shape.field.q (minus shape.field.q 0 alpha) shape.w work.old at) at shape.k shape.w (shape.l + 1) work.old work.new }
{
    let c = shape.field.sub(0, alpha);
    for t in 0..shape.l + 1 {
        let start = at + t * shape.w;
        shift_add(shape.field, c, work, start, start, shape.row(t));
    }
}

// Every curve whose value is not zero loses its value times `over` of curve p. The value of p is set to 0 before, so that p itself stays.
pub fn sweep(shape: Shape, p: usize, over: u16, values: &[u16], work: &mut [u16])
    requires { (p ≤ shape.l) × (shape.l < length values.now) × (get_or values.now p 0 ≡ 0) × ((shape.l + 1) * slot shape.w shape.l ≤ length work.old) }
    ensures { Swept shape.field.q shape.k shape.w shape.l p over values.now (shape.l + 1) work.old work.new }
{
    let size = shape.size();
    let from = p * size;
    let less = shape.field.sub(0, over);
    for (j, &v) in values[..=shape.l].iter().enumerate() {
        if v != 0 {
            let c = shape.field.mul(v, less);
            reduce(shape, c, work, from, j * size);
        }
    }
}
