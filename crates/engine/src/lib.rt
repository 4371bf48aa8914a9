// What the engine is asked for a word: each of its places makes a triple of point, symbol and the one multiplicity s.
#![tactic(auto)]

ghost use Rattle.std.specs.Prelude.{◌≡◌, ℕ, ◌+◌, ◌*◌, ◌<◌, ◌≤◌, T, length, get_or, take};
ghost use Rattle.rules.specs.Field.{ops};
ghost use Rattle.rules.specs.Code.{triples};
ghost use Rattle.rules.specs.Curve.{passes};
ghost use Rattle.rules.specs.Refusal.{under};
ghost use Rattle.engine.specs.Word.{Worded, Findable, CurveLeft, Listable, Listed, Readable};

use followers::Rows;
use roots::{Sizes, Tally};
use search::search;
use sift::sift;
use weights::{Curve, Shape, Triples};

// No word has more places.
const PLACES: usize = 64;

// The triples of a word: as many of the multiplicities as it has places.
fn of_word<'a>(points: &'a [u16], word: &'a [u16], times: &'a [u16; PLACES]) -> Triples<'a>
    requires { (length points.now ≤ 64) × (length word.now ≡ length points.now) × ((j : ℕ) → j < length times.now → get_or times.now j 0 ≤ 4) }
    ensures { (result.points.now ≡ points.now) × (result.word.now ≡ word.now) × (result.times.now ≡ take (length points.now) times.now) }
{
    Triples {
        points,
        word,
        times: &times[..points.len()],
    }
}

// Whether the curve passes for the word.
pub fn fits(shape: Shape, s: u16, points: &[u16], word: &[u16], curve: &[u16]) -> bool
    requires { Worded shape.field.q shape.k shape.w shape.l s points.now word.now × (length curve.now ≡ (shape.l + 1) * shape.w) × T (under shape.field.q curve.now) }
    ensures { result ≡ passes (ops shape.field.q) shape.k shape.w shape.l (triples s points.now word.now) curve.now }
{
    let times = [s; PLACES];
    let curve = Curve {
        shape,
        numbers: curve,
    };
    curve::passes(curve, of_word(points, word, &times))
}

// Writes a curve that passes for the word, and clears the room that it was found in.
pub fn find(shape: Shape, s: u16, points: &[u16], word: &[u16], curve: &mut [u16], work: &mut [u16])
    requires { Findable shape.field.q shape.k shape.w shape.l s points.now word.now curve.old work.old }
    ensures { CurveLeft shape.field.q shape.k shape.w shape.l s points.now word.now curve.new work.old work.new }
{
    let times = [s; PLACES];
    finder::find(shape, of_word(points, word, &times), curve, work);
    work.fill(0);
}

// Writes the roots of the curve that agree with enough of the word, in order, and clears the room that they were searched in.
// The roots wait in an array, since behind the list nothing may be written.
pub fn list(
    shape: Shape,
    s: u16,
    points: &[u16],
    word: &[u16],
    curve: &[u16],
    output: &mut [u16],
    work: &mut [u16],
) -> Tally
    requires { Listable shape.field.q shape.k shape.w shape.l s points.now word.now curve.now output.old work.old }
    ensures { Listed shape.field.q shape.k shape.w shape.l s points.now word.now curve.now output.old work.old output.new work.new result }
{
    let times = [s; PLACES];
    let mut roots = [0; 1536];
    let rows = Rows {
        field: shape.field,
        w: shape.w,
        l: shape.l,
    };
    let sizes = Sizes { rows, k: shape.k };
    let tally = search(sizes, curve, work, &mut roots);
    let found = sift(
        shape.field,
        shape.k,
        shape.w,
        tally.found,
        &roots,
        of_word(points, word, &times),
        output,
    );
    work.fill(0);
    Tally {
        found,
        tried: tally.tried,
    }
}

// Finding, then listing.
pub fn read(
    shape: Shape,
    s: u16,
    points: &[u16],
    word: &[u16],
    output: &mut [u16],
    curve: &mut [u16],
    work: &mut [u16],
) -> Tally
    requires { Readable shape.field.q shape.k shape.w shape.l s points.now word.now output.old curve.old work.old }
    ensures { CurveLeft shape.field.q shape.k shape.w shape.l s points.now word.now curve.new work.old work.new
        × Listed shape.field.q shape.k shape.w shape.l s points.now word.now curve.new output.old work.old output.new work.new result }
{
    find(shape, s, points, word, curve, work);
    list(shape, s, points, word, curve, output, work)
}
