// What a payload is, by its codec.
ghost use Rattle.std.specs.Prelude.{◌≡◌, ◌%◌, ◌≤◌, ◌++◌, length, slice_index, codes, decimal, OnOk};
ghost use Rattle.error.specs.Refusal.{number_of};

use crate::Codec;
use error::Error;
use nal_read::Kind;
use std::fmt;
use std::fmt::Write;
use stream::Text;
use vp8::Vp8Packet;

#[tactic(auto, using(stream::proofs::Words::written))]
fn refused(text: &mut Text, e: Error) -> fmt::Result
    ensures { OnOk result (text.new.bytes ≡ text.old.bytes ++ (codes "refused " ++ decimal (number_of e))) }
{
    write!(text, "refused {}", e.number())
}

// The units of a STAP-A.
fn aggregate(text: &mut Text, payload: &[u8]) -> fmt::Result
    requires { 1 ≤ length payload.now }
{
    write!(text, "STAP-A ")?;
    match nal_read::measure(payload) {
        Ok(units) => write!(text, "of {}", units.count),
        Err(e) => refused(text, e),
    }
}

// Stays: start and end are bits of the packet, and no choice of the caller.
fn fragment(text: &mut Text, first: bool, last: bool, head: u8, other_time: bool) -> fmt::Result {
    write!(text, "FU-A {}", head % 32)?;
    if first {
        write!(text, " start")?;
    }
    if last {
        write!(text, " end")?;
    }
    if !first && other_time {
        write!(text, " of another time")?;
    }
    Ok(())
}

// The type of the unit that a payload is.
#[tactic(auto, using(stream::proofs::Words::written))]
fn plain(text: &mut Text, payload: &[u8]) -> fmt::Result
    requires { 1 ≤ length payload.now }
    ensures { OnOk result (text.new.bytes ≡ text.old.bytes ++ (codes "unit " ++ decimal (slice_index payload.now 0 % 32))) }
{
    write!(text, "unit {}", payload[0] % 32)
}

// RFC 6184, section 5.3: F, which a relay sets "on packets it saw damaged". It is the packet's, whatever else the payload is.
fn is_marked(payload: &[u8]) -> bool {
    matches!(payload.first(), Some(128..))
}

#[tactic(auto, using(nal_read::proofs::Shapes::plain_long, nal_read::proofs::Shapes::aggregate_long))]
fn h264(text: &mut Text, payload: &[u8], other_time: bool) -> fmt::Result {
    write!(text, " h264 ")?;
    let kind = nal_read::kind_of(payload);
    match kind {
        Kind::Short => refused(text, Error::ErrShortPacket)?,
        Kind::Unknown(t) => refused(text, Error::NaluTypeIsNotHandled(t))?,
        Kind::Plain => plain(text, payload)?,
        Kind::Aggregate => aggregate(text, payload)?,
        Kind::Fragment { first, last, head } => fragment(text, first, last, head, other_time)?,
    }
    if is_marked(payload) {
        write!(text, " marked")?;
    }
    Ok(())
}

fn partition(text: &mut Text, fields: Vp8Packet) -> fmt::Result {
    write!(text, "partition {}", fields.pid)?;
    if fields.s == 1 {
        write!(text, " start")?;
    }
    if fields.i == 1 {
        write!(text, " picture {}", fields.picture_id)?;
    }
    Ok(())
}

fn vp8(text: &mut Text, payload: &[u8]) -> fmt::Result {
    write!(text, " vp8 ")?;
    let answer = Vp8Packet::default().depacketize(payload);
    match answer.read {
        Ok(_) => partition(text, answer.packet),
        Err(e) => refused(text, e),
    }
}

// `other_time`: where the payload is a later fragment, it is of another time than the one that it follows.
pub fn kind(text: &mut Text, payload: &[u8], codec: Codec, other_time: bool) -> fmt::Result {
    match codec {
        Codec::Vp8 => vp8(text, payload),
        Codec::H264 => h264(text, payload, other_time),
    }
}
