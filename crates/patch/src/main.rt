// The program for patch files: it reads the records from standard input, and prints the lines of each. A read or write that fails stops it and is told.
#![tactic(auto)]

ghost use Rattle.std.specs.Prelude.{◌+◌, ◌^◌, ◌<◌, ◌≤◌, length, IfOk};
ghost use Rattle.rules.specs.Patch.{nothing, size};
ghost use Rattle.kinds.specs.Holding.{Sound};
ghost use Rattle.records.specs.Stepped.{holding};
ghost use Rattle.patch.specs.Completed.{Took, Went, Completed};

use bodies::Room;
use records::Held;
use streams::Failed;

// What a turn left: what is held then, and whether the program goes on.
#[derive(Clone, Copy)]
struct Left {
    held: Held,
    more: bool,
}

// Takes the record of which the input has these bytes: what it left, and whether its lines could be written. The rest is room for it.
fn take(
    rt: &HostRuntime,
    held: Held,
    bytes: &[u8],
    room: &mut Room<'_>,
    out: &mut [u8; 16384],
) -> (Left, Result<(), Failed>)
    requires { Sound held.stock × (held.turns + 1 < 2 ^ 64) × (length bytes.now ≤ 132) × (length bytes.now ≤ size bytes.now) }
    ensures { Took held bytes.now result.0 }
{
    let done = records::step(held, bytes, room, out);
    let written = streams::put(
        rt,
        &out[..done.wrote],
        b"patch: cannot write to standard output",
    );
    let left = Left {
        held: done.held,
        more: done.more,
    };
    (left, written)
}

// One turn. A read that fails is no end of the input, so nothing is said of what came before it of the record.
fn turn(
    rt: &HostRuntime,
    held: Held,
    room: &mut Room<'_>,
    out: &mut [u8; 16384],
) -> Result<Left, Failed>
    requires { Sound held.stock × (held.turns + 1 < 2 ^ 64) }
    ensures { IfOk result (λ left. Went held left) }
{
    let mut bytes = [0; 132];
    let count = input::read_record(rt, &mut bytes, b"patch: cannot read standard input")?;
    let (left, written) = take(rt, held, &bytes[..count], room, out);
    written?;
    Ok(left)
}

// Takes turn after turn until one stops, and answers what it left: the end of the input or refusal 10. A call that fails stops it too.
// Where no number is left for a further record, which cannot come about, it stops as where a call fails.
fn read_all(rt: &HostRuntime, room: &mut Room<'_>, out: &mut [u8; 16384]) -> Result<Left, Failed>
    ensures { IfOk result (λ left. Completed (holding 0 nothing) left) }
{
    let mut held = records::start();
    while !records::is_full(held) {
        let left = turn(rt, held, room, out)?;
        if !left.more {
            return Ok(left);
        }
        held = left.held;
    }
    Err(Failed { count: 0 })
}

// The room for every record is made here, once: a list of candidates, a curve, document 01's 24,000 numbers of work, and the lines.
// What failed was told, and the end is no other.
fn main(rt: HostRuntime) {
    let mut room = Room {
        list: &mut [0; bodies::LIST],
        curve: &mut [0; bodies::CURVE],
        work: &mut [0; bodies::WORK],
    };
    let mut out = [0; 16384];
    let _ = read_all(&rt, &mut room, &mut out);
    streams::finish(&rt, b"patch: cannot close standard output");
}
