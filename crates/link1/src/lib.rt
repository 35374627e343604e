// Link 1: the public list. Each public call and type, from the crate that has it.

#![tactic(auto)]

// The numbers a caller may get back; 8 and 11 are no longer given.
pub use refusal::{
    BAD_CHECK, BAD_LENGTH, BAD_LEVEL, BAD_MARK, BAD_PAIR, BAD_PATTERN, BAD_START, NO_FRAME,
    OUT_OF_RANGE, Refusal, SPARE_BIT, SUCCESS, TOO_WIDE, UNKNOWN_LABEL, UNUSED_CODE, refusal_in,
};

// Levels, octets, frames and captures.
pub use capture::search;
pub use frame::verdict;
pub use line::{Heard, Receiver, Window};
pub use octets::{HeardOctet, OctetReceiver};
pub use sending::send;

// Messages, pairs, and track numbers as text.
pub use closing::close;
pub use kind::{Kind, kind_named, label};
pub use message::{Amplifying, Corner, Iff, Message, Strobe, Track, kind_of};
pub use opening::open;
pub use track::{track_number, track_text};

// Feet and steps, the altitude and the relay.
pub use relay::relay;
pub use units::{AltSteps, Feet, LinkSteps, altitude};
