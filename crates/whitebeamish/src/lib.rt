// The public calls, exported for C and Rust. Each returns its refusal number, 0 where it accepts; its further results go to the front of the lent answer, as many as the answer holds, and are zeros where it refuses.
#![tactic(auto)]

ghost use Rattle.std.specs.Prelude.{◌≡◌, [], ◌∷◌};
ghost use Rattle.rules.specs.Field.{modulus};
ghost use Rattle.rules.specs.Outcome.{sum_call, difference_call, product_call, inverse_call, setting_call, encode_call, check_call, list_call, Finds};
ghost use Rattle.causes.specs.Number.{refused};
ghost use Rattle.field.specs.Answer.{answered};
ghost use Rattle.reader.specs.Calls.{found, tried};
ghost use Rattle.answer.specs.Told.{told};
ghost use Rattle.whitebeamish.specs.Numbers.{asked, encoded, finding};
ghost use Rattle.whitebeamish.specs.Told.{number, derived, ListTold, ReadTold};

use causes::{Refusal, number_of};
use roots::Tally;
use setting::Setting;

// Tells the symbol of a field call, and gives the refusal number.
fn tell_symbol(outcome: Result<u16, Refusal>, answer: &mut [usize]) -> u16
    ensures value { result ≡ (answered outcome).refusal }
    ensures answer_after { answer.new ≡ told ((answered outcome).symbol ∷ []) answer.old }
{
    answer::tell(answer, &[usize::from(outcome.unwrap_or(0))]);
    number_of(outcome)
}

// Tells the list length and the beginnings of a call that lists, and gives the refusal number.
fn tell_tally(outcome: Result<Tally, Refusal>, answer: &mut [usize]) -> u16
    ensures value { result ≡ refused outcome }
    ensures answer_after { answer.new ≡ told (found outcome ∷ tried outcome ∷ []) answer.old }
{
    let tally = outcome.unwrap_or_default();
    answer::tell(answer, &[tally.found, tally.tried]);
    number_of(outcome)
}

// Whether p names a field.
#[unsafe(no_mangle)]
pub extern "C" fn whitebeamish_is_modulus(p: usize) -> bool
    ensures { result ≡ modulus p }
{
    field::is_modulus(p)
}

// The answer is the symbol a + b.
#[unsafe(no_mangle)]
pub extern "C" fn whitebeamish_sum(p: usize, a: u16, b: u16, answer: &mut [usize]) -> u16
    ensures value { result ≡ (sum_call p a b).refusal }
    ensures answer_after { answer.new ≡ told ((sum_call p a b).symbol ∷ []) answer.old }
{
    tell_symbol(field::sum(p, a, b), answer)
}

// The answer is the symbol a − b.
#[unsafe(no_mangle)]
pub extern "C" fn whitebeamish_difference(p: usize, a: u16, b: u16, answer: &mut [usize]) -> u16
    ensures value { result ≡ (difference_call p a b).refusal }
    ensures answer_after { answer.new ≡ told ((difference_call p a b).symbol ∷ []) answer.old }
{
    tell_symbol(field::difference(p, a, b), answer)
}

// The answer is the symbol a · b.
#[unsafe(no_mangle)]
pub extern "C" fn whitebeamish_product(p: usize, a: u16, b: u16, answer: &mut [usize]) -> u16
    ensures value { result ≡ (product_call p a b).refusal }
    ensures answer_after { answer.new ≡ told ((product_call p a b).symbol ∷ []) answer.old }
{
    tell_symbol(field::product(p, a, b), answer)
}

// The answer is the inverse of a.
#[unsafe(no_mangle)]
pub extern "C" fn whitebeamish_inverse(p: usize, a: u16, answer: &mut [usize]) -> u16
    ensures value { result ≡ (inverse_call p a).refusal }
    ensures answer_after { answer.new ≡ told ((inverse_call p a).symbol ∷ []) answer.old }
{
    tell_symbol(field::inverse(p, a), answer)
}

// The answer is W, ℓ, C, U and R.
#[unsafe(no_mangle)]
pub extern "C" fn whitebeamish_setting(
    p: usize,
    n: usize,
    k: usize,
    s: usize,
    tau: usize,
    answer: &mut [usize],
) -> u16
    ensures value { result ≡ (setting_call (asked p n k s tau)).refusal }
    ensures answer_after { answer.new ≡ told (derived (setting_call (asked p n k s tau))) answer.old }
{
    let outcome = setting::derive(Setting { p, n, k, s, tau });
    let d = outcome.unwrap_or_default();
    answer::tell(answer, &[d.w, d.l, d.c, d.u, d.r]);
    number_of(outcome)
}

// Writing a patch: reader::encode.
#[unsafe(no_mangle)]
pub extern "C" fn whitebeamish_encode(
    p: usize,
    n: usize,
    k: usize,
    points: &[u16],
    message: &[u16],
    output: &mut [u16],
) -> u16
    ensures { encoded result output.new ≡ encode_call p n k points.now message.now output.old }
{
    number_of(reader::encode(p, n, k, points, message, output))
}

// The answer is 1 where the proposed curve passes for the word, else 0.
#[unsafe(no_mangle)]
pub extern "C" fn whitebeamish_check(
    p: usize,
    n: usize,
    k: usize,
    s: usize,
    tau: usize,
    points: &[u16],
    word: &[u16],
    curve: &[u16],
    answer: &mut [usize],
) -> u16
    ensures value { result ≡ (check_call (asked p n k s tau) points.now word.now curve.now).refusal }
    ensures answer_after { answer.new ≡ told (number (check_call (asked p n k s tau) points.now word.now curve.now).yes ∷ []) answer.old }
{
    let setting = Setting { p, n, k, s, tau };
    let outcome = reader::check(setting, points, word, curve);
    answer::tell(answer, &[usize::from(outcome.unwrap_or(false))]);
    number_of(outcome)
}

// Finding a curve: reader::find, which tells no list length and no beginnings; they are 0 always.
#[unsafe(no_mangle)]
pub extern "C" fn whitebeamish_find(
    p: usize,
    n: usize,
    k: usize,
    s: usize,
    tau: usize,
    points: &[u16],
    word: &[u16],
    curve: &mut [u16],
    work: &mut [u16],
) -> u16
    ensures { Finds (asked p n k s tau) points.now word.now curve.old work.old (finding result 0 0 curve.new work.new) }
{
    let setting = Setting { p, n, k, s, tau };
    number_of(reader::find(setting, points, word, curve, work))
}

// Listing from the proposed curve. The answer is the list length and the beginnings tried.
#[unsafe(no_mangle)]
pub extern "C" fn whitebeamish_list(
    p: usize,
    n: usize,
    k: usize,
    s: usize,
    tau: usize,
    points: &[u16],
    word: &[u16],
    curve: &[u16],
    output: &mut [u16],
    work: &mut [u16],
    answer: &mut [usize],
) -> u16
    ensures { ListTold (list_call (asked p n k s tau) points.now word.now curve.now output.old work.old) answer.old result output.new work.new answer.new }
{
    let setting = Setting { p, n, k, s, tau };
    let outcome = reader::list(setting, points, word, curve, output, work);
    tell_tally(outcome, answer)
}

// Reading. The answer is the list length and the beginnings tried.
#[unsafe(no_mangle)]
pub extern "C" fn whitebeamish_read(
    p: usize,
    n: usize,
    k: usize,
    s: usize,
    tau: usize,
    points: &[u16],
    word: &[u16],
    output: &mut [u16],
    curve: &mut [u16],
    work: &mut [u16],
    answer: &mut [usize],
) -> u16
    ensures { ReadTold (asked p n k s tau) points.now word.now output.old curve.old work.old answer.old result output.new curve.new work.new answer.new }
{
    let setting = Setting { p, n, k, s, tau };
    let outcome = reader::read(setting, points, word, output, curve, work);
    tell_tally(outcome, answer)
}
