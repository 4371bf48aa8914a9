// The beginnings: visiting one and walking the symbols that may follow it call each other; the symbols still to place fall.
#![tactic(auto)]

ghost use Rattle.std.specs.Prelude.{◌-◌, ◌<◌};
ghost use Rattle.roots.specs.Ready.{found_at, tried_at, SearchReady};
ghost use Rattle.beginnings.specs.Searched.{Searched};

use followers::followers;
use lengthening::lengthen;
use roots::{Sizes, Tally, settle};

// A beginning with the curve in the slot at a, with so many symbols left to place: it is counted, and settled or walked on.
#[cycle(visit_walk)]
pub fn visit(
    sizes: Sizes,
    left: usize,
    a: usize,
    work: &mut [u16],
    begun: &mut [u16],
    roots: &mut [u16],
    tally: Tally,
) -> Tally
    requires { SearchReady sizes left a work.old begun.old roots.old tally (found_at sizes left a work.old) (tried_at sizes left a work.old) }
    ensures { Searched sizes left a work.old begun.old roots.old tally (found_at sizes left a work.old)
        (tried_at sizes left a work.old) work.new begun.new roots.new result }
{
    if left == 0 {
        return settle(sizes, a, work, begun, roots, tally);
    }
    walk(sizes, left, a, work, begun, roots, tally.tried_one())
}

// Each symbol that may follow the beginning, in order, gives a beginning again.
#[cycle(visit_walk)]
fn walk(
    sizes: Sizes,
    left: usize,
    a: usize,
    work: &mut [u16],
    begun: &mut [u16],
    roots: &mut [u16],
    tally: Tally,
) -> Tally
    requires { (0 < left) × SearchReady sizes left a work.old begun.old roots.old tally (found_at sizes left a work.old) (tried_at sizes left a work.old - 1) }
    ensures { Searched sizes left a work.old begun.old roots.old tally (found_at sizes left a work.old)
        (tried_at sizes left a work.old - 1) work.new begun.new roots.new result }
{
    let place = sizes.k - left;
    let after = a + sizes.rows.size();
    let mut all = tally;
    let mut symbols = [0u16; 24];
    let count = followers(sizes.rows, a, work, &mut symbols);
    for &g in &symbols[..count] {
        begun[place] = g;
        lengthen(sizes.rows, g, a, work);
        all = visit(sizes, left - 1, after, work, begun, roots, all);
    }
    all
}
