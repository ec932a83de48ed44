// The calls that a list may have, each by the number that its lines begin with.
use std::fmt;

#[derive(Clone, Copy, PartialEq, Eq)]
pub(crate) enum Call {
    DecodeUlaw = 1,
    EncodeUlaw = 2,
    DecodeAlaw = 3,
    EncodeAlaw = 4,
    DecodeNibble = 5,
    EncodeNibble = 6,
    DecodeBlock = 7,
    EncodeBlock = 8,
}

// In the order of their numbers.
pub(crate) const CALLS: [Call; 8] = [
    Call::DecodeUlaw,
    Call::EncodeUlaw,
    Call::DecodeAlaw,
    Call::EncodeAlaw,
    Call::DecodeNibble,
    Call::EncodeNibble,
    Call::DecodeBlock,
    Call::EncodeBlock,
];

impl Call {
    // The call of a number, or none: no other error is possible, so it is an `Option` and no `TryFrom`.
    pub(crate) fn numbered(number: u8) -> Option<Call> {
        CALLS.iter().copied().find(|call| *call as u8 == number)
    }
}

impl fmt::Display for Call {
    fn fmt<W: fmt::Write>(&self, f: &mut fmt::Formatter<W>) -> fmt::Result {
        f.write_str(match self {
            Call::DecodeUlaw => "decode_ulaw",
            Call::EncodeUlaw => "encode_ulaw",
            Call::DecodeAlaw => "decode_alaw",
            Call::EncodeAlaw => "encode_alaw",
            Call::DecodeNibble => "decode_adpcm_ima",
            Call::EncodeNibble => "encode_adpcm_ima",
            Call::DecodeBlock => "decode_adpcm_ima_ima4",
            Call::EncodeBlock => "encode_adpcm_ima_ima4",
        })
    }
}
