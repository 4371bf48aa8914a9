// The results of a call, written to the front of the lent answer as far as it reaches.
#![tactic(auto)]

ghost use Rattle.std.specs.Prelude.{◌≡◌};
ghost use Rattle.answer.specs.Told.{told};

// The results, as many as the answer has places for.
pub fn tell(answer: &mut [usize], results: &[usize])
    ensures { answer.new ≡ told results.now answer.old }
{
    let count = answer.len().min(results.len());
    answer[..count].copy_from_slice(&results[..count]);
}
