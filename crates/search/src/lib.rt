// The root search: every root of a curve, and the tally, by value and lent.
#![tactic(auto)]

ghost use Rattle.search.specs.Search.{Asked, CurveSearched, RootsLeft, spare, none};

use beginnings::visit;
use lengthening::strip;
use roots::{Sizes, Tally};
use runs::copy;

// Every root of the curve in the spare slot, in order, behind those that the tally has counted before; the empty beginning has the curve stripped.
fn run(sizes: Sizes, work: &mut [u16], roots: &mut [u16], tally: Tally) -> Tally
    requires { Asked sizes.rows.field.q sizes.k sizes.rows.w sizes.rows.l (spare sizes.rows.w sizes.rows.l work.old) work.old roots.old tally }
    ensures { CurveSearched sizes.rows.field.q sizes.k sizes.rows.w sizes.rows.l (spare sizes.rows.w sizes.rows.l work.old) work.old roots.old tally work.new roots.new result }
{
    let size = sizes.rows.size();
    strip(sizes.rows.w, sizes.rows.l, size, work);
    let mut begun = [0u16; 64];
    visit(sizes, sizes.k, size, work, &mut begun, roots, tally)
}

// The same with the tally lent: one tally is carried along any number of searches.
fn tally_into(tally: &mut Tally, sizes: Sizes, work: &mut [u16], roots: &mut [u16])
    requires { Asked sizes.rows.field.q sizes.k sizes.rows.w sizes.rows.l (spare sizes.rows.w sizes.rows.l work.old) work.old roots.old tally.old }
    ensures { CurveSearched sizes.rows.field.q sizes.k sizes.rows.w sizes.rows.l (spare sizes.rows.w sizes.rows.l work.old) work.old roots.old tally.old
        work.new roots.new tally.new }
{
    *tally = run(sizes, work, roots, *tally);
}

// The same for a caller that has counted nothing: the tally is made here, and lent.
fn count(sizes: Sizes, work: &mut [u16], roots: &mut [u16]) -> Tally
    requires { Asked sizes.rows.field.q sizes.k sizes.rows.w sizes.rows.l (spare sizes.rows.w sizes.rows.l work.old) work.old roots.old none }
    ensures { CurveSearched sizes.rows.field.q sizes.k sizes.rows.w sizes.rows.l (spare sizes.rows.w sizes.rows.l work.old) work.old roots.old none work.new roots.new result }
{
    let mut tally = Tally::default();
    tally_into(&mut tally, sizes, work, roots);
    tally
}

// Every root of the curve, in order, into roots, and the beginnings tried.
pub fn search(sizes: Sizes, curve: &[u16], work: &mut [u16], roots: &mut [u16]) -> Tally
    requires { Asked sizes.rows.field.q sizes.k sizes.rows.w sizes.rows.l curve.now work.old roots.old none }
    ensures { RootsLeft sizes.rows.field.q sizes.k sizes.rows.w sizes.rows.l curve.now work.old roots.old work.new roots.new result }
{
    copy(curve, &mut work[..curve.len()]);
    count(sizes, work, roots)
}
