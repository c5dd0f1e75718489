// Sequence numbers: how far one is ahead of another, and which comes next.
#![tactic(auto)]

ghost use Rattle.std.specs.Prelude.{◌≡◌};
ghost use Rattle.sequence.specs.Number.{distance_of, next_of};

// How far `number` is ahead of `awaited`, modulo 65,536.
pub fn distance(number: u16, awaited: u16) -> u16
    ensures { result ≡ distance_of number awaited }
{
    number.wrapping_sub(awaited)
}

// The number after `number`.
pub fn after(number: u16) -> u16
    ensures { result ≡ next_of number }
{
    number.wrapping_add(1)
}
