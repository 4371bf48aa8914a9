// The curve of a beginning lengthened by a symbol, from its slot into the slot after it. A slot is l + 1 rows of w numbers, and the first slot is a spare.
#![tactic(auto)]

ghost use Rattle.std.specs.Prelude.{◌+◌, ◌*◌, ◌<◌, ◌≤◌, length};
ghost use Rattle.followers.specs.Slot.{SlotBelow};
ghost use Rattle.lengthening.specs.Lengthened.{Carried, RowTaken, Substituted, Tells, CommonPower, Moved, SlotStripped, Lengthened};

use followers::Rows;
use within::{add_within, shift, shift_add, strip_run};

// Each row from u on becomes x times itself plus g times the row after it, and the last row x times itself.
fn carry(rows: Rows, g: u16, u: usize, work: &mut [u16])
    requires { (u ≤ rows.l) × (rows.l * rows.w + rows.w ≤ length work.old) }
    ensures { Carried rows.field.q g rows.w rows.l u work.old work.new }
{
    for t in u..rows.l {
        let row = t * rows.w;
        shift_add(rows.field, g, work, row + rows.w, row, rows.w);
    }
    shift(work, rows.l * rows.w, rows.w);
}

// Horner's rule in y takes in row u: the rows behind it, which hold P, become with it the row u plus x·y + g times P.
fn take_row(rows: Rows, g: u16, u: usize, work: &mut [u16])
    requires { (u < rows.l) × (rows.l * rows.w + rows.w ≤ length work.old) }
    ensures { RowTaken rows.field.q g rows.w rows.l u work.old work.new }
{
    let row = u * rows.w;
    add_within(rows.field, g, work, row + rows.w, row, rows.w);
    carry(rows, g, u + 1, work);
}

// Q(x, x·y + g), cut to w columns, for the curve Q in the first slot, by Horner from the last row on.
fn substitute(rows: Rows, g: u16, work: &mut [u16])
    requires { (g < rows.field.q) × ((rows.l + 1) * rows.w ≤ length work.old) × SlotBelow rows.field.q 0 ((rows.l + 1) * rows.w) work.old }
    ensures { Substituted rows.field.q g rows.w rows.l work.old work.new }
{
    for u in (0..rows.l).rev() {
        take_row(rows, g, u, work);
    }
}

// Whether column i of the first slot is zero.
fn is_clear(w: usize, l: usize, i: usize, work: &[u16]) -> bool
    requires { (i < w) × (l ≤ 24) × ((l + 1) * w ≤ length work.now) }
    ensures { Tells w l i work.now result }
{
    (0..l + 1).all(|t| work[t * w + i] == 0)
}

// The largest power of x that divides the curve in the first slot, or w where it is zero.
fn common_power(w: usize, l: usize, work: &[u16]) -> usize
    requires { (l ≤ 24) × ((l + 1) * w ≤ length work.now) }
    ensures { CommonPower w l work.now result }
{
    (0..w).find(|&v| !is_clear(w, l, v, work)).unwrap_or(w)
}

// The curve of the first slot over x^v, into the slot from b on.
fn divide(w: usize, l: usize, v: usize, b: usize, work: &mut [u16])
    requires { (v ≤ w) × (l ≤ 24) × ((l + 1) * w ≤ b) × (b + (l + 1) * w ≤ length work.old) }
    ensures { Moved w (l + 1) v b work.old work.new }
{
    for t in 0..l + 1 {
        let row = t * w;
        strip_run(work, row, b + row, v, w);
    }
}

// The curve of the first slot stripped, into the slot from b on.
pub fn strip(w: usize, l: usize, b: usize, work: &mut [u16])
    requires { (l ≤ 24) × ((l + 1) * w ≤ b) × (b + (l + 1) * w ≤ length work.old) }
    ensures { SlotStripped w l b work.old work.new }
{
    let v = common_power(w, l, work);
    divide(w, l, v, b, work);
}

// Q(x, x·y + g) stripped, for the curve Q in the slot at a, into the slot after it.
pub fn lengthen(rows: Rows, g: u16, a: usize, work: &mut [u16])
    requires { (g < rows.field.q) × ((rows.l + 1) * rows.w ≤ a)
        × (a + (rows.l + 1) * rows.w + (rows.l + 1) * rows.w ≤ length work.old)
        × SlotBelow rows.field.q a ((rows.l + 1) * rows.w) work.old }
    ensures { Lengthened rows.field.q g rows.w rows.l a work.old work.new }
{
    let size = rows.size();
    work.copy_within(a..a + size, 0);
    substitute(rows, g, work);
    strip(rows.w, rows.l, a + size, work);
}
