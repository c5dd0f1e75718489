// Numbers that a seed decides.
ghost use Rattle.std.specs.Prelude.{◌<◌};

// Number k of a seed: a square modulo the prime 2,147,483,647.
pub fn number(seed: usize, k: usize) -> usize
    ensures { result < 2147483647 }
{
    let x = (seed % 2147483647 * 48271 + k % 2147483647 * 16807) % 2147483647;
    x * x % 2147483647
}
