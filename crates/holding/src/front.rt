// What another value holds: its faults are one level deeper, and what is read of it stands behind a front.
ghost use Rattle.std.specs.Prelude.{◌≡◌, ◌+◌, min, IfOk, Ok};
ghost use Rattle.format.specs.Answers.{good, both, inside};
ghost use Rattle.refusal.specs.Told.{told};

use refusal::Refusal;

// What the one that is held answers, as its holder's answer.
pub fn held(answer: Result<usize, Refusal>) -> Result<usize, Refusal>
    ensures told { told result ≡ inside (told answer) }
    ensures same { IfOk result (λ n. answer ≡ Ok n) }
{
    answer.map_err(Refusal::deeper)
}

// The same of a sheet's length, with so many bytes before it.
pub fn behind_front(answer: Result<usize, Refusal>, front: usize) -> Result<usize, Refusal>
    ensures { told result ≡ inside (both (told answer) (λ n. good (min (front + n) 18446744073709551615))) }
{
    held(answer).map(|length| length.saturating_add(front))
}
