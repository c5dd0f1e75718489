// What the elements of a block must be to be written.
ghost use Rattle.std.specs.Prelude.{◌≡◌, cond};
ghost use Rattle.error.specs.Said.{says, said};
ghost use Rattle.block.specs.Form.{form_of};
ghost use Rattle.header_write.specs.Judge.{judged};

use block::Form;
use error::Error;

// 9 and 10: the length of the elements with their heads, if `count` of them can stand in a block.
// Stays: the bit is a bool in the record that C sees; and the length comes back, as `judged` has it.
pub fn judge(extension: bool, profile: u16, len: usize, count: usize) -> Result<usize, Error>
    ensures { said result ≡ cond extension (judged (form_of profile) len count (says len)) (says len) }
{
    if !extension || Form::from(profile) != Form::Other {
        return Ok(len);
    }
    // the payload must be in 32-bit words.
    if len % 4 != 0 {
        return Err(Error::HeaderExtensionPayloadNot32BitWords);
    }
    if count != 1 {
        return Err(Error::ErrRfc3550headerIdrange);
    }
    Ok(len)
}
