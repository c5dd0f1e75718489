// Where the access units of an Annex B stream begin, by H.264, section 7.4.1.2.3.
//
// Behind a coded slice a new access unit begins with a delimiter, a parameter set, supplemental information or a unit of type 14
// to 18, and with the first slice of a picture. That slice is told by its first macroblock, the picture's first, and not by the
// comparison of headers in section 7.4.1.2.4: in a stream with slices in arbitrary order the two differ, and with them marker and
// time.
ghost use Rattle.std.specs.Prelude.{◌≡◌, ◌≤◌, length, IfSome};
ghost use Rattle.send.specs.Access.{is_slice, is_before, has_header, begins as begins_of, edge_of, first_len};

use annexb::next_code;

// A coded slice or a partition of one.
// Stays: the types by their numbers in H.264's own table 7-1; most have no name in the Rust.
fn is_slice(head: u8) -> bool
    ensures { result ≡ is_slice head }
{
    matches!(head % 32, 1..=5)
}

// Supplemental information, a parameter set, a delimiter, or a unit of type 14 to 18.
fn is_before(t: u8) -> bool
    ensures { result ≡ is_before t }
{
    matches!(t, 6..=9 | 14..=18)
}

fn has_header(t: u8) -> bool
    ensures { result ≡ has_header t }
{
    matches!(t, 1 | 2 | 5)
}

// Whether a unit begins an access unit where a slice came before, by its first two bytes.
fn begins(head: u8, next: u8) -> bool
    ensures { result ≡ begins_of head next }
{
    is_before(head % 32) || has_header(head % 32) && 128 <= next
}

// The end of the first access unit, which is the place of the start code before the second: none where the bytes end before it is
// certain.
fn find_edge(s: &[u8]) -> Option<usize>
    ensures { (result ≡ edge_of s.now) × IfSome result (λ n. n ≤ length s.now) }
{
    let mut start = 0;
    let mut coded = false;
    // Stays: a loop, since where the next unit starts is found with its start code.
    loop {
        let Some(code) = next_code(s, start) else {
            break None;
        };
        let unit = code.at + code.len;
        if s.len() < unit + 2 {
            break None;
        }
        if coded {
            if begins(s[unit], s[unit + 1]) {
                break Some(code.at);
            }
        } else {
            coded = is_slice(s[unit]);
        }
        start = unit;
    }
}

// How long the first access unit is, in bytes with which the file may end: none where that is not certain, or no start code is there.
// Stays: whether the file ended is a fact about the bytes, and no choice.
pub fn first_len(s: &[u8], ended: bool) -> Option<usize>
    ensures { (result ≡ first_len s.now ended) × IfSome result (λ n. n ≤ length s.now) }
{
    let edge = find_edge(s);
    if edge.is_some() || !ended {
        return edge;
    }
    if let Some(_) = next_code(s, 0) {
        return Some(s.len());
    }
    None
}
