// Numbers among a program's arguments.
ghost use Rattle.std.specs.Prelude.{◌≡◌, MatchResult, IfOk, IfSome};
ghost use Rattle.stream.specs.Argument.{number_of, Between};
ghost use Rattle.stream.specs.declared.status.Status.TheVariants.{Usage};

use crate::status::Status;
use std::env::FillError;
use std::rt::Env;

// The number that decimal digits say, up to 9,999,999,999.
// Stays: a loop, since `str::parse` takes a sign before the digits, which `number_of` does not.
#[tactic(auto, unfolding(crate::specs::Argument::number_of))]
fn decimal(text: &[u8]) -> Option<u64>
    ensures { result ≡ number_of text.now }
{
    if text.is_empty() {
        return None;
    }
    let mut value = 0;
    for b in text {
        let digit = b.wrapping_sub(b'0');
        if 9 < digit || 999999999 < value {
            return None;
        }
        value = value * 10 + u64::from(digit);
    }
    Some(value)
}

// The program's argument i, where it is there: it must be a number from least to most.
pub fn argument(rt: &HostRuntime, i: usize, least: u64, most: u64) -> Result<Option<u64>, Status>
    ensures { MatchResult result (λ given. IfSome given (Between least most)) (λ status. status ≡ Usage) }
{
    let mut text = [0u8; 16];
    let given = match rt.arg(i, &mut text) {
        Ok(n) => decimal(&text[..n]),
        Err(FillError::NotPresent) => return Ok(None),
        Err(FillError::TooLong) => None,
    };
    match given {
        Some(value) if least <= value && value <= most => Ok(given),
        _ => Err(Status::Usage),
    }
}

// The program's argument i, which must be there, and a number from least to most.
pub fn needed(rt: &HostRuntime, i: usize, least: u64, most: u64) -> Result<u64, Status>
    ensures { MatchResult result (Between least most) (λ status. status ≡ Usage) }
{
    argument(rt, i, least, most)?.ok_or(Status::Usage)
}
