// Sifting: of the messages in a buffer those that agree with enough of the triples of point, symbol and multiplicity.
#![tactic(auto)]

ghost use Rattle.std.specs.Prelude.{◌≡◌, cond, ◌+◌, ◌*◌, ◌<◌, ◌≤◌, T, length};
ghost use Rattle.rules.specs.Field.{ops};
ghost use Rattle.rules.specs.Code.{meets, score};
ghost use Rattle.rules.specs.Refusal.{under};
ghost use Rattle.weights.specs.Triples.{tripled};
ghost use Rattle.sift.specs.Sift.{Counted, Sifted};

use runs::eval;
use symbols::Field;
use weights::Triples;

// The multiplicity, where the message has the symbol at the point, and else 0.
fn share(field: Field, message: &[u16], point: u16, symbol: u16, times: u16) -> usize
    requires { symbol < field.q }
    ensures { (result ≡ cond (meets (ops field.q) message.now (record { point = point; symbol = symbol; times = times })) times 0) × (result ≤ times) }
{
    if eval(field, message, point) == symbol {
        usize::from(times)
    } else {
        0
    }
}

// The multiplicities of the triples that the message meets, added up.
fn score(field: Field, message: &[u16], triples: Triples<'_>) -> usize
    requires { (length triples.points.now ≤ 64) × T (under field.q triples.word.now) }
    ensures { result ≡ score (ops field.q) (tripled triples.entry.points.now triples.entry.word.now triples.entry.times.now) message.now }
{
    let mut sum = 0;
    for ((&point, &symbol), &times) in triples.points.iter().zip(triples.word).zip(triples.times) {
        sum += share(field, message, point, symbol, times);
    }
    sum
}

// Writes the message behind the kept ones, where its score is at least `least`. The answer is how many are kept then.
fn keep(
    field: Field,
    least: usize,
    message: &[u16],
    triples: Triples<'_>,
    kept: usize,
    output: &mut [u16],
) -> usize
    requires { (length triples.points.now ≤ 64) × T (under field.q triples.word.now) × (kept < 65536) × (kept * length message.now + length message.now ≤ length output.old) }
    ensures { Counted field.q least triples.entry.points.now triples.entry.word.now triples.entry.times.now kept message.now output.old output.new result }
{
    if score(field, message, triples) < least {
        return kept;
    }
    let a = kept * message.len();
    output[a..a + message.len()].copy_from_slice(message);
    kept + 1
}

// Of `count` messages of k symbols those whose score is at least `least`, in order, to the front of the output. The answer is how many.
pub fn sift(
    field: Field,
    k: usize,
    least: usize,
    count: usize,
    found: &[u16],
    triples: Triples<'_>,
    output: &mut [u16],
) -> usize
    requires { (length triples.points.now ≤ 64) × T (under field.q triples.word.now) × (count < 65536) × (count * k ≤ length found.now) × (count * k ≤ length output.old) }
    ensures { Sifted field.q k least triples.entry.points.now triples.entry.word.now triples.entry.times.now count found.now output.old output.new result }
{
    let mut kept = 0;
    for i in 0..count {
        let a = i * k;
        kept = keep(field, least, &found[a..a + k], triples, kept, output);
    }
    kept
}
