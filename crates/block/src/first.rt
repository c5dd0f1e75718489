// The profile and the head of a first element.
ghost use Rattle.std.specs.Prelude.{◌≡◌, ◌≤◌};
ghost use Rattle.block.specs.Form.{first_profile, first_head};

use crate::{EXTENSION_PROFILE_ONE_BYTE, EXTENSION_PROFILE_TWO_BYTE};

// "The first set picks 0xBEDE for 0 to 16 bytes, 0x1000 for 17 to 255, else keeps the profile"
pub fn first_profile(profile: u16, len: usize) -> u16
    ensures { result ≡ first_profile profile len }
{
    match len {
        0..=16 => EXTENSION_PROFILE_ONE_BYTE,
        17..=255 => EXTENSION_PROFILE_TWO_BYTE,
        _ => profile,
    }
}

// How many bytes it counts for the element's head: none where it keeps the profile.
// Stays: beside `first_profile`, since the paper says the two apart, and a long element keeps its profile and counts no head.
pub fn first_head(len: usize) -> usize
    ensures { (result ≡ first_head len) × (result ≤ 2) }
{
    match len {
        0..=16 => 1,
        17..=255 => 2,
        _ => 0,
    }
}
