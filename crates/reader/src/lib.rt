// The public calls of document 01. Each tests its refusals in the table's order, by way of `terms` and `refusals`, and then asks
// the engine, or `writing` for a patch.
#![tactic(auto)]

ghost use Rattle.std.specs.Prelude.{◌≡◌};
ghost use Rattle.rules.specs.Outcome.{encode_call, check_call, list_call, Finds, Reads};
ghost use Rattle.setting.specs.Call.{asked};
ghost use Rattle.reader.specs.Calls.{encoded, checked, finding, listing, reading};

use causes::Refusal;
use refusals::slices;
use roots::Tally;
use setting::Setting;
use symbols::Field;

// Writing a patch: the values of the message's polynomial at the points, n numbers at the front of the output.
pub fn encode(
    p: usize,
    n: usize,
    k: usize,
    points: &[u16],
    message: &[u16],
    output: &mut [u16],
) -> Result<(), Refusal>
    ensures { encoded result output.new ≡ encode_call p n k points.now message.now output.old }
{
    refusals::of_encode(p, n, k, points, message, output.len())?;
    writing::write_patch(Field::new(p as u16), points, message, &mut output[..n]);
    Ok(())
}

// Whether the proposed curve passes for the word.
pub fn check(setting: Setting, points: &[u16], word: &[u16], curve: &[u16]) -> Result<bool, Refusal>
    ensures { checked result ≡ check_call (asked setting) points.now word.now curve.now }
{
    let terms = terms::of_setting(setting)?;
    refusals::of_proposed(
        setting.p, setting.n, points, setting.n, word, terms.size, curve,
    )?;
    Ok(engine::fits(terms.shape, terms.s, points, word, curve))
}

// Writes a curve that passes for the word to the front of the curve buffer.
pub fn find(
    setting: Setting,
    points: &[u16],
    word: &[u16],
    curve: &mut [u16],
    work: &mut [u16],
) -> Result<(), Refusal>
    ensures { Finds (asked setting) points.now word.now curve.old work.old (finding result curve.new work.new) }
{
    let terms = terms::of_setting(setting)?;
    let short = slices::any_short(&[(curve.len(), terms.size), (work.len(), terms.room)]);
    refusals::of_word(setting, points, word, short)?;
    engine::find(
        terms.shape,
        terms.s,
        points,
        word,
        &mut curve[..terms.size],
        &mut work[..terms.room],
    );
    Ok(())
}

// Listing from the proposed curve: every message that is a root of it and agrees with the word in at least n−τ places.
pub fn list(
    setting: Setting,
    points: &[u16],
    word: &[u16],
    curve: &[u16],
    output: &mut [u16],
    work: &mut [u16],
) -> Result<Tally, Refusal>
    ensures { listing result output.new work.new ≡ list_call (asked setting) points.now word.now curve.now output.old work.old }
{
    let terms = terms::of_setting(setting)?;
    let short = slices::any_short(&[(output.len(), terms.list), (work.len(), terms.room)]);
    refusals::of_listing(setting, points, word, terms.size, curve, short)?;
    if !engine::fits(terms.shape, terms.s, points, word, curve) {
        return Err(Refusal::CurveFails);
    }
    Ok(engine::list(
        terms.shape,
        terms.s,
        points,
        word,
        curve,
        output,
        &mut work[..terms.room],
    ))
}

// Reading: finding, then listing. The curve buffer's front holds the curve used.
pub fn read(
    setting: Setting,
    points: &[u16],
    word: &[u16],
    output: &mut [u16],
    curve: &mut [u16],
    work: &mut [u16],
) -> Result<Tally, Refusal>
    ensures { Reads (asked setting) points.now word.now output.old curve.old work.old (reading result output.new curve.new work.new) }
{
    let terms = terms::of_setting(setting)?;
    let short = slices::any_short(&[
        (output.len(), terms.list),
        (curve.len(), terms.size),
        (work.len(), terms.room),
    ]);
    refusals::of_word(setting, points, word, short)?;
    Ok(engine::read(
        terms.shape,
        terms.s,
        points,
        word,
        output,
        &mut curve[..terms.size],
        &mut work[..terms.room],
    ))
}
