// A step's answer in numbers, as a line or a lent list has it.
ghost use Rattle.std.specs.Prelude.{◌≡◌};
ghost use Rattle.events.specs.Steps.{refusal_number, answer_value};

use base::Refusal;

// Document 01's number; 0, which is no ground's, where the step was accepted.
pub fn refusal_number(a: Result<u16, Refusal>) -> u8
    ensures { result ≡ refusal_number a }
{
    match a {
        Ok(_) => 0,
        Err(r) => u8::from(r),
    }
}

// A refusal has value 0.
pub fn answer_value(a: Result<u16, Refusal>) -> u16
    ensures { result ≡ answer_value a }
{
    match a {
        Ok(v) => v,
        Err(_) => 0,
    }
}
