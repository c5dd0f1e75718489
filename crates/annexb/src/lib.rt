// Annex B: the start codes of a frame, and the units between them.
//
// Only proved code calls this crate, `next_ind` apart, so its functions may ask that a place lies in the frame.
// Stays: a place is a number beside the frame and no rest of it, since what is found is a place in the frame again.
//
// A start code is two or more zeros and a 1. Bytes before the first one are ignored; without one the frame is one unit.
#![tactic(auto)]

ghost use Rattle.std.specs.Prelude.{◌≡◌, ◌+◌, ◌≤◌, true, length, drop, get_or};
ghost use Rattle.error.specs.Said.{said};
ghost use Rattle.annexb.specs.Search.{next_code, code_of, next_ind};
ghost use Rattle.annexb.specs.Runs.{Run, FromTo, ZerosEnd, ZerosStart};
ghost use Rattle.annexb.specs.Units.{units, pieces, Pieced};

use error::Error;

// Where a start code lies.
#[derive(Clone, Copy)]
pub struct Code {
    // the place of its first zero
    pub at: usize,
    // how many bytes it has, its 1 among them
    pub len: usize,
}

// Whether the sixteen bytes from i on are all from LOW to HIGH: one comparison tells both, since a byte below LOW wraps to behind those above.
// No byte ends the loop early: so all sixteen are compared at once.
fn sixteen_from_to<const LOW: u8, const HIGH: u8>(frame: &[u8], i: usize) -> bool
    requires { (LOW ≤ HIGH) × (i + 16 ≤ length frame.now) }
    ensures { result ≡ true → Run (FromTo LOW HIGH) frame.now i (i + 16) }
{
    let mut all = true;
    for b in &frame[i..i + 16] {
        all &= b.wrapping_sub(LOW) <= HIGH - LOW;
    }
    all
}

// Behind bytes from start on that are from LOW to HIGH, sixteen at a time. The step is behind a branch, so that no turn waits for the one before.
// Stays: a loop, since its step stands behind a branch, so that no turn waits for the one before.
fn past<const LOW: u8, const HIGH: u8>(frame: &[u8], start: usize) -> usize
    requires { (LOW ≤ HIGH) × (start ≤ length frame.now) }
    ensures { Run (FromTo LOW HIGH) frame.now start result }
{
    let mut i = start;
    while 16 <= frame.len() - i && sixteen_from_to::<LOW, HIGH>(frame, i) {
        i += 16;
    }
    i
}

// Behind the zeros from start on. A start code has two or three as a rule: sixteen at once are worth a look only behind those.
// Stays: a loop, since its place also jumps over sixteen bytes at once.
fn past_zeros(frame: &[u8], start: usize) -> usize
    requires { start ≤ length frame.now }
    ensures { ZerosEnd frame.now start result }
{
    let mut i = start;
    while i < frame.len() && frame[i] == 0 {
        i += 1;
        if 3 <= i - start {
            i = past::<0, 0>(frame, i);
        }
    }
    i
}

// The first of the zeros up to the one two places behind i; those before i do not count.
fn first_zero(frame: &[u8], i: usize) -> usize
    requires { (i + 3 ≤ length frame.now) × (get_or frame.now (i + 2) 0 ≡ 0) }
    ensures { ZerosStart frame.now i result }
{
    if frame[i + 1] != 0 {
        return i + 2;
    }
    if frame[i] != 0 {
        return i + 1;
    }
    i
}

// The first start code from start on; a length of 0 says that there is none. In each turn no zero before i counts: so none ends before the
// byte two ahead, which says how to go on. Behind last, beyond the frame's end too, there is no such byte.
// Stays: two numbers come back in registers and an Option in memory, with which a frame of one small unit takes an eighth longer.
// Stays: a loop with a break, as the paper has it: each byte says by how much the place jumps.
fn find_code(frame: &[u8], start: usize) -> Code
    ensures { result ≡ code_of (next_code frame.now start) }
{
    if frame.len() < 3 {
        return Code { at: 0, len: 0 };
    }
    let last = frame.len() - 3;
    let mut i = start;
    loop {
        if last < i {
            break Code { at: 0, len: 0 };
        }
        let b = frame[i + 2];
        if 1 < b {
            i = past::<2, 255>(frame, i + 3);
            continue;
        }
        if b == 1 {
            if frame[i] == 0 && frame[i + 1] == 0 {
                break Code { at: i, len: 3 };
            }
            i += 3;
            continue;
        }
        let first = first_zero(frame, i);
        let end = past_zeros(frame, i + 3);
        if frame.len() <= end {
            break Code { at: 0, len: 0 };
        }
        if frame[end] == 1 && 2 <= end - first {
            break Code {
                at: first,
                len: end - first + 1,
            };
        }
        i = end + 1;
    }
}

// The first start code from start on, all its zeros included.
pub fn next_code(frame: &[u8], start: usize) -> Option<Code>
    ensures { result ≡ next_code frame.now start }
{
    let code = find_code(frame, start);
    if code.len == 0 { None } else { Some(code) }
}

// The search by itself: too long a frame is refused, and a place beyond its end.
pub fn next_ind(frame: &[u8], start: usize) -> Result<Option<Code>, Error>
    ensures { said result ≡ next_ind frame.now start }
{
    if 16777216 < frame.len() || frame.len() < start {
        return Err(Error::OutsideDomain);
    }
    Ok(next_code(frame, start))
}

// Where the first unit starts: behind the first start code, or with the frame.
pub fn first_unit(frame: &[u8]) -> usize
    ensures { (result ≤ length frame.now) × (pieces (drop result frame.now) ≡ units frame.now) }
{
    let code = find_code(frame, 0);
    code.at + code.len
}

// A unit of a frame.
#[derive(Clone, Copy)]
pub struct Piece {
    // where it ends
    pub end: usize,
    // where the unit behind the start code that follows it starts; none at the frame's end
    pub next: Option<usize>,
}

// The unit that starts at start.
pub fn unit_at(frame: &[u8], start: usize) -> Piece
    requires { start ≤ length frame.now }
    ensures { Pieced frame.now start result }
{
    let code = find_code(frame, start);
    if code.len == 0 {
        return Piece {
            end: frame.len(),
            next: None,
        };
    }
    Piece {
        end: code.at,
        next: Some(code.at + code.len),
    }
}
