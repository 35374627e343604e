// Track numbers and their text: two letters from A E G H J K L M and three digits 0 to 7.

#![tactic(auto)]

ghost use Rattle.std.specs.Prelude.{◌≡◌, ◌≤◌, ◌<◌, length};
ghost use Rattle.track.specs.TrackText.{letter_of, digit_of, text_of, letter_code, digit_code, code_if, Spelled, number_if, tracked_of};

use refusal::Refusal;

const LETTERS: [u8; 8] = *b"AEGHJKLM";

fn letter(code: u16) -> u8
    requires { code < 8 }
    ensures { result ≡ letter_of code }
{
    LETTERS[usize::from(code)]
}

fn digit(code: u16) -> u8
    requires { code < 8 }
    ensures { result ≡ digit_of code }
{
    b'0' + code as u8
}

// The five characters of a number.
fn put_text(number: u16, text: &mut [u8])
    requires { length text.old ≡ 5 }
    ensures { text.new ≡ text_of number }
{
    text[0] = letter(number / 4096 % 8);
    text[1] = letter(number / 512 % 8);
    text[2] = digit(number / 64 % 8);
    text[3] = digit(number / 8 % 8);
    text[4] = digit(number % 8);
}

// The text of a track number into a buffer of five octets: 2, 9. On a refusal nothing is written.
pub fn track_text(number: u16, text: &mut [u8]) -> Result<(), Refusal>
    ensures { Spelled number text.old result text.new }
{
    if text.len() != 5 {
        return Err(Refusal::of(refusal::BAD_LENGTH));
    }
    if 32767 < number {
        return Err(Refusal::of(refusal::OUT_OF_RANGE));
    }
    put_text(number, text);
    Ok(())
}

// The code of a letter, if it has one.
fn letter_code(x: u8) -> Option<u16>
    ensures { result ≡ code_if (letter_code x) }
{
    let code = LETTERS.iter().position(|letter| *letter == x)?;
    Some(code as u16)
}

// The code of a digit, if it has one.
fn digit_code(x: u8) -> Option<u16>
    ensures { result ≡ code_if (digit_code x) }
{
    match x {
        b'0'..=b'7' => Some(u16::from(x - b'0')),
        _ => None,
    }
}

// The number of two letters and three digits, if each character has a code.
fn number_of(text: &[u8]) -> Option<u16>
    requires { length text.now ≡ 5 }
    ensures { result ≡ number_if text.now }
{
    let letters = letter_code(text[0])? * 4096 + letter_code(text[1])? * 512;
    let digits = digit_code(text[2])? * 64 + digit_code(text[3])? * 8 + digit_code(text[4])?;
    Some(letters + digits)
}

// The track number of a text: 2, 9.
pub fn track_number(text: &[u8]) -> Result<u16, Refusal>
    ensures { result ≡ tracked_of text.now }
{
    if text.len() != 5 {
        return Err(Refusal::of(refusal::BAD_LENGTH));
    }
    number_of(text).ok_or(Refusal::of(refusal::OUT_OF_RANGE))
}
