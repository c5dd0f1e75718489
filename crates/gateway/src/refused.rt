// A refusal in a record that C and Rust can read.
ghost use Rattle.std.specs.Prelude.{◌≡◌};
ghost use Rattle.error.specs.Refusal.{carried_by, refusal_of};
ghost use Rattle.error.specs.Said.{says, refused, said};
ghost use Rattle.gateway.specs.Refused.{carried_as, refused_as, not_refused, test_as};

use error::Error;

#[repr(C)]
#[derive(Clone, Copy)]
pub struct Refused {
    // 0 where the call answers; else which refusal it is, 1 to 25
    pub number: u8,
    // 17: the size and the bytes left; 19: the NAL type and a zero; else zeros
    pub carried: [usize; 2],
}

impl From<Error> for Refused {
    ghost from_gives = { λ e r. r ≡ refused_as (refusal_of e) };

    fn from(e: Error) -> Refused {
        Refused {
            number: e.number(),
            carried: match e {
                Error::StapASizeLargerThanBuffer(size, left) => [size, left],
                Error::NaluTypeIsNotHandled(nalu_type) => [usize::from(nalu_type), 0],
                _ => [0, 0],
            },
        }
    }
}

pub(crate) fn answered() -> Refused
    ensures { result ≡ not_refused }
{
    Refused {
        number: 0,
        carried: [0, 0],
    }
}

// Whether something holds.
#[repr(C)]
#[derive(Clone, Copy)]
pub struct RtpTest {
    pub refused: Refused,
    // false beside a refusal
    pub holds: bool,
}

impl From<Result<bool, Error>> for RtpTest {
    ghost from_gives = { λ x r. r ≡ test_as (said x) };

    fn from(answer: Result<bool, Error>) -> RtpTest {
        match answer {
            Ok(holds) => RtpTest {
                refused: answered(),
                holds,
            },
            Err(e) => RtpTest {
                refused: Refused::from(e),
                holds: false,
            },
        }
    }
}
