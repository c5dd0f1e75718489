// A packet in one line.
use crate::above::Above;
use crate::{Codec, kind};
use header::Header;
use packet::Payload;
use std::fmt;
use std::fmt::Write;
use stream::Text;

// The header's fields, then id and length of each element.
fn fields(text: &mut Text, h: Header) -> fmt::Result {
    write!(
        text,
        "number {} time {} source {} marker {} type {} extensions",
        h.sequence_number,
        h.timestamp,
        h.ssrc,
        u8::from(h.marker),
        h.payload_type
    )?;
    let elements = h.extensions;
    if elements.count == 0 {
        return write!(text, " none");
    }
    for (id, len) in elements.ids.iter().zip(&elements.lens).take(elements.count) {
        write!(text, " {id}:{len}")?;
    }
    Ok(())
}

// The line of a packet that can be read.
fn readable(
    text: &mut Text,
    h: &Header,
    payload: &[u8],
    codec: Codec,
    other_time: bool,
) -> fmt::Result {
    fields(text, *h)?;
    kind::kind(text, payload, codec, other_time)?;
    writeln!(text, " payload {}", payload.len())
}

// Writes a packet's line, and answers what is above the next one.
pub fn line(text: &mut Text, packet: &[u8], codec: Codec, above: Option<Above>) -> Option<Above> {
    let answer = packet::unmarshal(packet);
    let h = answer.header;
    match answer.read {
        Ok(Payload { at, len }) => {
            let payload = stream::part(packet, at, len);
            let _ = readable(
                text,
                &h,
                payload,
                codec,
                above.is_some_and(|a| a.at_odds(h)),
            );
            Above::of(h, payload)
        }
        Err(e) => {
            let _ = writeln!(text, "refused {} packet {}", e.number(), packet.len());
            above
        }
    }
}
