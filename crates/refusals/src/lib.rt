// What a call refuses of what it is lent, by the causes 5 to 8, and all that encode refuses: the first cause that applies.
#![tactic(auto)]

ghost use Rattle.std.specs.Prelude.{◌≡◌, cond, not, [], ◌∷◌, ◌++◌, ◌<◌, ◌%◌, eqb};
ghost use Rattle.rules.specs.Refusal.{◌if◌, ◌of◌, lowest, point_causes, encode_refusal};
ghost use Rattle.causes.specs.Number.{refused};

use causes::Refusal;
use field::is_modulus;
use runs::all_distinct;
use setting::{Setting, code_in_ranges};

pub mod slices;

// 5 to 7 for n points, m symbols and a curve of that size. The lengths come first, so that what is too long is not gone through.
pub fn of_proposed(
    p: usize,
    n: usize,
    points: &[u16],
    m: usize,
    symbols: &[u16],
    size: usize,
    curve: &[u16],
) -> Result<(), Refusal>
    ensures { refused result ≡ lowest (point_causes p n points.now ((m of symbols.now) ∷ (size of curve.now) ∷ [])) }
{
    if !slices::three_long(n, points, m, symbols, size, curve) {
        return Err(Refusal::WrongLength);
    }
    if !slices::three_below(p, points, symbols, curve) {
        return Err(Refusal::NoSymbol);
    }
    if !all_distinct(points) {
        return Err(Refusal::EqualPoints);
    }
    Ok(())
}

// 5 to 7 for n points and m symbols: no curve is one of no numbers.
fn of_pair(p: usize, n: usize, points: &[u16], m: usize, symbols: &[u16]) -> Result<(), Refusal>
    ensures { refused result ≡ lowest (point_causes p n points.now ((m of symbols.now) ∷ [])) }
{
    of_proposed(p, n, points, m, symbols, 0, &[])
}

// 5 to 7 for n points alone, as the points of a patch file come.
pub fn of_points(p: usize, n: usize, points: &[u16]) -> Result<(), Refusal>
    ensures { refused result ≡ lowest (point_causes p n points.now []) }
{
    of_pair(p, n, points, 0, &[])
}

// 8 where the rooms are too short.
fn of_rooms(short: bool) -> Result<(), Refusal>
    ensures { refused result ≡ cond short 8 0 }
{
    if short {
        return Err(Refusal::TooLittleRoom);
    }
    Ok(())
}

// 5 to 8 for n points and as many symbols, where the rooms are too short or not.
pub fn of_word(setting: Setting, points: &[u16], word: &[u16], short: bool) -> Result<(), Refusal>
    ensures { refused result ≡ lowest (point_causes setting.p setting.n points.now ((setting.n of word.now) ∷ []) ++ (8 if short) ∷ []) }
{
    of_pair(setting.p, setting.n, points, setting.n, word)?;
    of_rooms(short)
}

// 5 to 8 for n points, as many symbols and a proposed curve of that size, where the rooms are too short or not.
pub fn of_listing(
    setting: Setting,
    points: &[u16],
    word: &[u16],
    size: usize,
    curve: &[u16],
    short: bool,
) -> Result<(), Refusal>
    ensures { refused result ≡ lowest (point_causes setting.p setting.n points.now ((setting.n of word.now) ∷ (size of curve.now) ∷ []) ++ (8 if short) ∷ []) }
{
    of_proposed(setting.p, setting.n, points, setting.n, word, size, curve)?;
    of_rooms(short)
}

// 5 to 8 for n points and a reel, whose words have so many symbols in all, where the rooms are too short or not.
pub fn of_reel(p: usize, n: usize, points: &[u16], total: usize, short: bool) -> Result<(), Refusal>
    requires { 0 < n }
    ensures { refused result ≡ lowest ((5 if not (eqb (total % n) 0)) ∷ (point_causes p n points.now [] ++ (8 if short) ∷ [])) }
{
    if total % n != 0 {
        return Err(Refusal::WrongLength);
    }
    of_points(p, n, points)?;
    of_rooms(short)
}

// What the encode call refuses. output is the buffer's length.
pub fn of_encode(
    p: usize,
    n: usize,
    k: usize,
    points: &[u16],
    message: &[u16],
    output: usize,
) -> Result<(), Refusal>
    ensures { refused result ≡ encode_refusal p n k points.now message.now output }
{
    if !is_modulus(p) {
        return Err(Refusal::NoModulus);
    }
    if !code_in_ranges(n, k) {
        return Err(Refusal::OutOfRange);
    }
    of_pair(p, n, points, k, message)?;
    of_rooms(output < n)
}
