// Runs kept cases of find, check, list and read from standard input, and prints each outcome with what the buffers then hold.
#![tactic(auto)]

ghost use Rattle.std.specs.Prelude.{◌+◌, ◌≤◌};

use causes::{Refusal, number_of};
use roots::Tally;
use setting::Setting;
use test_cases::input::{next, read_setting, take, wide};
use test_cases::text::{places, put, put_outcome, put_run};

// What buffers hold before a call.
const OLD: u16 = 9999;

// The calls that a case may name.
#[derive(Clone, Copy, PartialEq, Eq)]
enum Call {
    Find,
    Check,
    List,
    Read,
}

// The next case's call; none where the cases end.
fn next_call(rt: &HostRuntime) -> Option<Call> {
    match next(rt) {
        0 => None,
        1 => Some(Call::Find),
        2 => Some(Call::Check),
        3 => Some(Call::List),
        _ => Some(Call::Read),
    }
}

// A case: the call with what it is asked.
#[derive(Clone, Copy)]
struct Case<'a> {
    call: Call,
    setting: Setting,
    points: &'a [u16],
    word: &'a [u16],
    curve: &'a [u16],
}

// The curve for the setting and the place behind it; one place where it is refused or ℓ is too large for the buffers.
fn put_curve(rt: &HostRuntime, setting: Setting, curve: &[u16]) {
    let count = match setting::derive(setting) {
        Ok(derived) if derived.l <= 24 => places(derived.l + 1, derived.w),
        _ => 1,
    };
    put_run(rt, curve, count);
}

// The check: its answer as 1 or 0.
fn check(rt: &HostRuntime, case: Case<'_>) {
    let outcome = reader::check(case.setting, case.points, case.word, case.curve);
    let refusal = number_of(outcome);
    let yes = u8::from(outcome.unwrap_or(false));
    put(rt, &format_args!(" {refusal} {yes}"));
}

// The calls that write. Finding lists nothing and tries nothing; the check is no such call.
fn ask(
    case: Case<'_>,
    output: &mut [u16],
    curve: &mut [u16],
    work: &mut [u16],
) -> Result<Tally, Refusal> {
    let (setting, points, word) = (case.setting, case.points, case.word);
    match case.call {
        Call::Find => {
            reader::find(setting, points, word, curve, work)?;
            Ok(Tally::default())
        }
        Call::Check => Ok(Tally::default()),
        Call::List => reader::list(setting, points, word, case.curve, output, work),
        Call::Read => reader::read(setting, points, word, output, curve, work),
    }
}

// The outcome of such a call, and then the curve that it found, or else the list with the place behind it.
fn answer(rt: &HostRuntime, case: Case<'_>) {
    let mut output = [OLD; 1537];
    let mut curve = [OLD; 6400];
    let mut work = [OLD; 60000];
    let outcome = ask(case, &mut output, &mut curve, &mut work);
    put_outcome(rt, outcome, &work);
    if case.call == Call::Find {
        put_curve(rt, case.setting, &curve);
    } else {
        let found = outcome.map_or(0, |tally| tally.found);
        put_run(rt, &output, places(found, case.setting.k));
    }
}

// The call that the case names.
fn run(rt: &HostRuntime, case: Case<'_>) {
    if case.call == Call::Check {
        check(rt, case);
    } else {
        answer(rt, case);
    }
    put(rt, &"\n");
}

// Runs a case, and says whether it fits the buffers: behind the numbers given the input has the points, the word and a curve so long.
fn read_case(rt: &HostRuntime, call: Call, setting: Setting, long: usize) -> bool {
    let n = setting.n;
    if n > 64 || long > 6400 {
        return false;
    }
    let mut all = [0u16; 6528];
    let lent = &mut all[..n + n + long];
    take(rt, lent);
    let (points, rest) = lent.split_at(n);
    let (word, curve) = rest.split_at(n);
    run(
        rt,
        Case {
            call,
            setting,
            points,
            word,
            curve,
        },
    );
    true
}

// The next case, and whether there was one that fits.
fn turn(rt: &HostRuntime) -> bool {
    let Some(call) = next_call(rt) else {
        return false;
    };
    read_case(rt, call, read_setting(rt), wide(rt))
}

// At most a thousand cases.
fn main(rt: HostRuntime) {
    for _ in 0..1000 {
        if !turn(&rt) {
            return;
        }
    }
}
