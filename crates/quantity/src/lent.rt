// What a function that is called from C answers, and what it writes into what it was lent.
ghost use Rattle.std.specs.Prelude.{◌≡◌};
ghost use Rattle.quantity.specs.Answers.{check_number, outcome_of};
ghost use Rattle.quantity.specs.Lent.{leaves};

use crate::Refusal;

// What C is answered: 0, or the number of the refusal.
pub fn answer_number<T: Copy>(answer: Result<T, Refusal>) -> u8
    ensures { result ≡ check_number answer }
{
    answer.err().map_or(0, u8::from)
}

// The same, and writes what is given into what was lent. A refused call leaves it as it was.
pub fn give<T: Copy>(answer: Result<T, Refusal>, lent: &mut T) -> u8
    ensures { record { answer = result; lent = lent.new } ≡ leaves lent.old (outcome_of (λ value. value) answer) (λ value. value) }
{
    match answer {
        Ok(value) => {
            *lent = value;
            0
        }
        Err(refusal) => u8::from(refusal),
    }
}
