// The records of a patch file, one after the other, from standard input.
#![tactic(auto)]

ghost use Rattle.std.specs.Prelude.{◌≤◌, length, take, MatchResult};
ghost use Rattle.rules.specs.Patch.{size};

use streams::Failed;

// The bytes of the next record, as far as the input has them: how many they are, none at its end, or how many came before a read failed, which these words tell.
pub fn read_record(rt: &HostRuntime, all: &mut [u8], words: &[u8]) -> Result<usize, Failed>
    requires { 132 ≤ length all.old }
    ensures { MatchResult result
        (λ count. (count ≤ 132) × (count ≤ size (take count all.new)))
        (λ failed. (failed.count ≤ 132) × (failed.count ≤ size (take failed.count all.new))) }
{
    let begun = streams::fill(rt, &mut all[..2], words)?;
    let want = parsing::want(&all[..begun]);
    match streams::fill(rt, &mut all[2..2 + want], words) {
        Ok(rest) => Ok(begun + rest),
        Err(failed) => Err(Failed {
            count: begun + failed.count,
        }),
    }
}
