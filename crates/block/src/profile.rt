// The form of a profile, and how long its elements are with their heads.
ghost use Rattle.std.specs.Prelude.{◌≡◌, ◌+◌, ◌*◌, ◌≤◌, take};
ghost use Rattle.elements.specs.Elements.{sum};
ghost use Rattle.block.specs.Form.{form_of, per_element};

use crate::{EXTENSION_PROFILE_ONE_BYTE, EXTENSION_PROFILE_TWO_BYTE, Form};
use elements::total;

impl From<u16> for Form {
    ghost from_gives = { λ profile form. form ≡ form_of profile };

    fn from(profile: u16) -> Self {
        match profile {
            EXTENSION_PROFILE_ONE_BYTE => Form::OneByte,
            EXTENSION_PROFILE_TWO_BYTE => Form::TwoByte,
            _ => Form::Other,
        }
    }
}

impl Form {
    // How many bytes an element's head takes.
    pub fn per_element(self) -> usize
        ensures { (result ≡ per_element self) × (result ≤ 2) }
    {
        match self {
            Form::OneByte => 1,
            Form::TwoByte => 2,
            Form::Other => 0,
        }
    }

    // How many bytes the elements of a record in the domain take with their heads.
    // Stays: the array by itself, since `Parts`, which lends it, is header_write's, which uses this crate.
    pub fn payload_len(self, count: usize, lens: &[u16; 32]) -> usize
        requires count_bound { count ≤ 32 }
        requires lens_bound { sum (take count lens.now) ≤ 1024 }
        ensures { (result ≡ sum (take count lens.now) + count * per_element self) × (result ≤ 1088) }
    {
        total(count, lens) + count * self.per_element()
    }
}
