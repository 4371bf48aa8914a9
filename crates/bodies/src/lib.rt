// The bodies of a patch file's records: the setting in one, what points and a word are refused for, and the lines of a word's readings.
#![tactic(auto)]

ghost use Rattle.std.specs.Prelude.{◌≡◌, ◌+◌, ◌*◌, ◌≤◌, length};
ghost use mathlib.Core.List.{[], ◌∷◌, flat_map};
ghost use Rattle.rules.specs.Patch.{line, body, setting_in, setting_record_refusal, points_refusal};
ghost use Rattle.rules.specs.Search.{rows};
ghost use Rattle.text.specs.Lines.{Writes};
ghost use Rattle.bodies.specs.Setting.{setting_of};
ghost use Rattle.bodies.specs.Heard.{Heard, found_of};
ghost use Rattle.bodies.specs.Lent.{Lent};
ghost use Rattle.causes.specs.Number.{refused};

use causes::Refusal;
use parsing::Record;
use setting::Setting;
use text::Lines;

mod room;

pub use room::Room;

// The program's room: the numbers of a list of candidates, of a curve, and of work.
pub const LIST: usize = 1536;

pub const CURVE: usize = 6400;

pub const WORK: usize = 24000;

// The setting in the body: "Kind 1: p, n, k, s, τ"
pub fn read_setting(given: Record<'_>) -> Setting
    requires { 14 ≤ length given.bytes.now }
    ensures { setting_of result ≡ setting_in (body given.entry.bytes.now) }
{
    let number = |j| usize::from(parsing::pair(given.bytes, j));
    Setting {
        p: number(2),
        n: number(3),
        k: number(4),
        s: number(5),
        tau: number(6),
    }
}

// What the setting call refuses, or that the program's work is too small for it.
pub fn setting_refusal(setting: Setting) -> Result<(), Refusal>
    ensures { refused result ≡ setting_record_refusal (setting_of setting) }
{
    let derived = setting::derive(setting)?;
    if derived.r > WORK {
        return Err(Refusal::TooLittleRoom);
    }
    Ok(())
}

// What is refused of points for a setting: 5, 6 or 7.
pub fn points_refusal(setting: Setting, points: &[u16]) -> Result<(), Refusal>
    ensures { refused result ≡ points_refusal (setting_of setting) points.now }
{
    refusals::of_points(setting.p, setting.n, points)
}

// Reads the word with a setting and points that were accepted: how many candidates there are. What the room held before does not count.
pub fn read_held(
    setting: Setting,
    points: &[u16],
    word: &[u16],
    room: &mut Room<'_>,
) -> Result<usize, Refusal>
    requires { (setting_record_refusal (setting_of setting) ≡ 0) × (points_refusal (setting_of setting) points.now ≡ 0) }
    ensures heard { Heard (setting_of setting) points.now word.now room.new.list.now (refused result) (found_of result) }
    ensures lent { Lent room.old room.new }
{
    // Each is lent from the room by itself: the check follows a loan that has a name.
    let list = &mut *room.list;
    let curve = &mut *room.curve;
    let work = &mut *room.work;
    let tally = reader::read(setting, points, word, list, curve, work)?;
    Ok(tally.found)
}

// "After it comes "+" and k symbols for each candidate": a line for each.
pub fn candidates(list: &[u16], k: usize, found: usize, lines: &mut Lines)
    requires { (found * k ≤ length list.now) × (lines.old.len + found * (k * 6 + 2) ≤ length lines.old.out.now) }
    ensures { (lines.new.len ≤ lines.old.len + found * (k * 6 + 2))
        × Writes (flat_map (line (43 ∷ [])) (rows k found list.now)) lines.old lines.new }
{
    for j in 0..found {
        let start = j * k;
        lines.plus_line(&list[start..start + k]);
    }
}
