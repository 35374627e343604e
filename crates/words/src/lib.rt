// The two messages of a frame as words of 49 bits, taken out of an image and put into one (001, Annex A, Appendix 3).

#![tactic(auto)]

ghost use Rattle.std.specs.Prelude.{◌≡◌, ◌≤◌, length};
ghost use Rattle.bits.specs.Numbers.{tab};
ghost use Rattle.bits.specs.Octets.{bit_at};
ghost use Rattle.words.specs.Words.{word_of, image_of};
ghost use Rattle.words.specs.Packing.{data_group, mirrored_of, message_stored, check_octet};

use frame::Frame;

// A message is printed in seven groups.
const GROUPS: usize = 7;

// Each has seven bits: group 1 the message's bits 1 to 7, group 7 its bits 43 to 49.
const BITS: u32 = 7;

// Group `group` of message k is this data group of the frame, 1 to 14, and this octet of the image: octet 0 is the start group.
fn data_group(k: usize, group: usize) -> usize
    requires { (1 ≤ k) × (k ≤ 2) × (1 ≤ group) × (group ≤ 7) }
    ensures { result ≡ data_group k group }
{
    GROUPS * (k - 1) + group
}

// Seven bits the other way round: bit 1 of a group comes first in its octet, where it weighs most, and weighs least in the word.
// The octet C4, which is 44 without its mark, gives 11: label 17.
const MIRRORED: [u8; 128] = *b"\
    \x00\x40\x20\x60\x10\x50\x30\x70\x08\x48\x28\x68\x18\x58\x38\x78\
    \x04\x44\x24\x64\x14\x54\x34\x74\x0c\x4c\x2c\x6c\x1c\x5c\x3c\x7c\
    \x02\x42\x22\x62\x12\x52\x32\x72\x0a\x4a\x2a\x6a\x1a\x5a\x3a\x7a\
    \x06\x46\x26\x66\x16\x56\x36\x76\x0e\x4e\x2e\x6e\x1e\x5e\x3e\x7e\
    \x01\x41\x21\x61\x11\x51\x31\x71\x09\x49\x29\x69\x19\x59\x39\x79\
    \x05\x45\x25\x65\x15\x55\x35\x75\x0d\x4d\x2d\x6d\x1d\x5d\x3d\x7d\
    \x03\x43\x23\x63\x13\x53\x33\x73\x0b\x4b\x2b\x6b\x1b\x5b\x3b\x7b\
    \x07\x47\x27\x67\x17\x57\x37\x77\x0f\x4f\x2f\x6f\x1f\x5f\x3f\x7f";

// The table, once for a whole message: a constant is copied where it is used.
fn mirroring() -> [u8; 128]
    ensures { result ≡ tab mirrored_of 128 }
{
    MIRRORED
}

// The word of message k, group by group: the seven bits of each octet, without the mark, go to their place.
pub fn word(image: &[u8], k: usize) -> u64
    requires { (1 ≤ k) × (k ≤ 2) × (length image.now ≡ 16) }
    ensures { result ≡ word_of (bit_at image.now) k }
{
    let mirrored = mirroring();
    let mut gathered: u64 = 0;
    for group in 1..=GROUPS {
        let octet = image[data_group(k, group)];
        let seven = mirrored[usize::from(octet & 127)];
        gathered = bits::place(gathered, BITS * (group as u32 - 1), BITS, u64::from(seven));
    }
    gathered
}

// The octets of message k, group by group: a mark, and the seven bits from their place in the word.
fn put_message(image: &mut [u8], k: usize, word: u64)
    requires { (1 ≤ k) × (k ≤ 2) × (length image.old ≡ 16) }
    ensures { (image.new ≡ message_stored image.old k word) × (length image.new ≡ 16) }
{
    let mirrored = mirroring();
    for group in 1..=GROUPS {
        let seven = bits::field(word, BITS * (group as u32 - 1), BITS);
        let octet = 128 | mirrored[seven as usize];
        image[data_group(k, group)] = octet;
    }
}

// The check octet for an image whose last octet is still 0: the mark, the six check bits, the final one.
fn check_octet(image: &[u8]) -> u8
    requires { length image.now ≡ 16 }
    ensures { result ≡ check_octet image.now }
{
    let frame = Frame {
        octets: image,
        position: 0,
    };
    let mut checks: u8 = 0;
    for i in 0..6 {
        checks |= (((frame.column(6 - i).count_ones() + 1) % 2) as u8) << i;
    }
    129 | (checks << 1)
}

// The image of two words, written over the whole lent buffer.
pub fn put_image(first: u64, second: u64, image: &mut [u8])
    requires { length image.old ≡ 16 }
    ensures { image.new ≡ image_of first second }
{
    image[0] = 0;
    put_message(image, 1, first);
    put_message(image, 2, second);
    image[15] = 0;
    let check = check_octet(image);
    image[15] = check;
}
