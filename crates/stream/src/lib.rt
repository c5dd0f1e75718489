// What the programs share: packets in a file, a file in a buffer, arguments, the status.
//
// No contract can say what a file holds or what is written to one: the contracts here are of what is done with the bytes.
#![tactic(auto)]

mod arguments;
mod files;
mod framing;
mod parts;
mod records;
pub mod status;
mod text;
mod window;

pub use arguments::{argument, needed};
pub use files::{Files, Output, account_to, create, finish, open, open_files};
pub use framing::{Record, frame, record_at};
pub use parts::{front, part};
pub use records::{Next, ending, next_packet};
pub use text::Text;
pub use window::{Window, refill};
