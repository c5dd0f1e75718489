// The in-place entry: "A host keeps the joiner's record for the whole show, and each packet brings that record up to date."
ghost use Rattle.std.specs.Prelude.{◌≡◌};
ghost use Rattle.joiner.specs.Join.{join_step};
ghost use Rattle.joiner.specs.Said.{step_heard, place_heard};

use crate::{Joined, Joiner, Step};
use error::Error;

pub fn join_in_place(
    j: &mut Joiner,
    packet: &[u8],
    gather: &mut [u8],
    out: &mut [u8],
) -> Result<Joined, Error>
    ensures { place_heard j.new result gather.new out.new ≡ join_step j.old packet.now gather.old out.old }
{
    let step = j.join(packet, gather, out);
    *j = step.joiner;
    step.answer
}

// By value through it, for callers that keep no reference.
pub fn join_by_value(joiner: Joiner, packet: &[u8], gather: &mut [u8], out: &mut [u8]) -> Step
    ensures { step_heard result gather.new out.new ≡ join_step joiner packet.now gather.old out.old }
{
    let mut kept = joiner;
    let answer = join_in_place(&mut kept, packet, gather, out);
    Step {
        joiner: kept,
        answer,
    }
}
