// What the calls test of the slices that they take.
ghost use Rattle.std.specs.Prelude.{◌≡◌, ◌&&◌, ltb};
ghost use Rattle.std.specs.List.{list_any};
ghost use Rattle.rules.specs.Refusal.{long, under};

use runs::all_below;

// Whether there are n points and m symbols, and the numbers of a curve are as many as its size.
pub fn three_long(
    n: usize,
    points: &[u16],
    m: usize,
    symbols: &[u16],
    size: usize,
    curve: &[u16],
) -> bool
    ensures { result ≡ long n points.now && (long m symbols.now && long size curve.now) }
{
    points.len() == n && symbols.len() == m && curve.len() == size
}

// Whether a room is too short: of each, how many numbers it has and how many it needs.
pub fn any_short(rooms: &[(usize, usize)]) -> bool
    ensures { result ≡ list_any (λ room. ltb room.0 room.1) rooms.now }
{
    rooms.iter().any(|(has, needs)| has < needs)
}

// Whether each of the points, of the symbols and of a curve is below p.
pub fn three_below(p: usize, points: &[u16], symbols: &[u16], curve: &[u16]) -> bool
    ensures { result ≡ under p points.now && (under p symbols.now && under p curve.now) }
{
    all_below(p, points) && all_below(p, symbols) && all_below(p, curve)
}
