// Text that is put together before it is written, so that one answer says whether all of it was.
use arrayvec::ArrayString;

// In place, so that no program asks for memory to say how it went. What has no room is left out: the longest, an account of `join`, has
// some 1,050 bytes.
pub type Text = ArrayString<2048>;
