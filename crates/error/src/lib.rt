// Every refusal, 1 to 25, under the name that error.rs of rtp 0.17.2 gives it where it has one.
//
// specs/Refusal.antt gives each its number and what it carries. All other crates answer a refusal
// as a value of this one enum.
#![tactic(auto)]

ghost use Rattle.std.specs.Prelude.{◌≡◌};
ghost use Rattle.error.specs.Refusal.{number_of};

#[derive(Clone, Copy, Debug, PartialEq, Eq)]
pub enum Error {
    // 1: under 4 bytes, or under 12 + 4 x CC
    ErrHeaderSizeInsufficient,
    // 2: extension header or block longer than the packet
    ErrHeaderSizeInsufficientForExtension,
    // 3: an element's byte lies past the packet
    ElementPastPacket,
    // 4: the packet is too short
    ErrShortPacket,
    // 5: output buffer, or table of packet ends, too small
    ErrBufferTooSmall,
    // 6: gather buffer too small for the fragments, or the run over 16,777,215 bytes
    GatherTooSmall,
    // 7: over 32 elements or 1,024 data bytes; an SPS or PPS to be saved is over 1,024
    OverLimits,
    // 8: any other input outside the domain
    OutsideDomain,
    // 9: other profile, element bytes not a multiple of 4
    HeaderExtensionPayloadNot32BitWords,
    // 10: other profile: set with id not 0; write with element count not 1
    ErrRfc3550headerIdrange,
    // 11: set, one-byte: id not 1..14
    ErrRfc8285oneByteHeaderIdrange,
    // 12: set, one-byte: size over 16
    ErrRfc8285oneByteHeaderSize,
    // 13: set, two-byte: id 0
    ErrRfc8285twoByteHeaderIdrange,
    // 14: set, two-byte: size over 255
    ErrRfc8285twoByteHeaderSize,
    // 15: delete: id absent
    ErrHeaderExtensionNotFound,
    // 16: delete: extensions off
    ErrHeaderExtensionsNotEnabled,
    // 17: STAP-A size past the packet: the size, and the bytes left
    StapASizeLargerThanBuffer(usize, usize),
    // 18: one byte left where STAP-A needs a two-byte size
    StapASizeCut,
    // 19: NAL type 0, 25..27, 29..31: the type
    NaluTypeIsNotHandled(u8),
    // 20: joiner: other SSRC
    OtherSource,
    // 21: joiner: FU-A with start and end both set
    StartAndEnd,
    // 22: joiner already closed
    AlreadyClosed,
    // 23: closing number 32,768 or more ahead of the awaited one
    ClosingTooFar,
    // 24: missed total would pass 4,294,967,295
    MissedTotalFull,
    // 25: joiner: fragment of another time
    OtherTime,
}

impl Error {
    // The paper's number.
    // Stays: the table is by the paper, `number` is the name that callers have, and a `From<Error> for u8` would be the same match.
    pub fn number(self) -> u8
        ensures { result ≡ number_of self }
    {
        match self {
            Error::ErrHeaderSizeInsufficient => 1,
            Error::ErrHeaderSizeInsufficientForExtension => 2,
            Error::ElementPastPacket => 3,
            Error::ErrShortPacket => 4,
            Error::ErrBufferTooSmall => 5,
            Error::GatherTooSmall => 6,
            Error::OverLimits => 7,
            Error::OutsideDomain => 8,
            Error::HeaderExtensionPayloadNot32BitWords => 9,
            Error::ErrRfc3550headerIdrange => 10,
            Error::ErrRfc8285oneByteHeaderIdrange => 11,
            Error::ErrRfc8285oneByteHeaderSize => 12,
            Error::ErrRfc8285twoByteHeaderIdrange => 13,
            Error::ErrRfc8285twoByteHeaderSize => 14,
            Error::ErrHeaderExtensionNotFound => 15,
            Error::ErrHeaderExtensionsNotEnabled => 16,
            Error::StapASizeLargerThanBuffer(_, _) => 17,
            Error::StapASizeCut => 18,
            Error::NaluTypeIsNotHandled(_) => 19,
            Error::OtherSource => 20,
            Error::StartAndEnd => 21,
            Error::AlreadyClosed => 22,
            Error::ClosingTooFar => 23,
            Error::MissedTotalFull => 24,
            Error::OtherTime => 25,
        }
    }
}
