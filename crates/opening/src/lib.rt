// Opening an image: a good frame, the labels of its two words, the pair, and what each word holds.

#![tactic(auto)]

ghost use Rattle.std.specs.Prelude.{◌≡◌};
ghost use Rattle.pair.specs.Opening.{open_contents, open_words, open_of};

use kind::Kind;
use message::Message;
use refusal::Refusal;

// Both messages, once the labels are known and the pair is in the table.
fn open_contents(k: Kind, l: Kind, v: u64, w: u64) -> Result<(Message, Message), Refusal>
    ensures { result ≡ open_contents k l v w }
{
    let first = reading::read_content(1, k, v)?;
    let second = reading::read_content(2, l, w)?;
    Ok((first, second))
}

// The words of a good frame.
fn open_words(v: u64, w: u64) -> Result<(Message, Message), Refusal>
    ensures { result ≡ open_words v w }
{
    let k = kind::find_kind(v).ok_or(Refusal::at(refusal::UNKNOWN_LABEL, 1))?;
    let l = kind::find_kind(w).ok_or(Refusal::at(refusal::UNKNOWN_LABEL, 2))?;
    if !pair::is_pair(k, l) {
        return Err(Refusal::of(refusal::BAD_PAIR));
    }
    open_contents(k, l, v, w)
}

// Opens an image: 2, 3, 4, 5, 6 first message, 6 second, 7, 12 to 14 first, 12 to 14 second.
pub fn open(image: &[u8]) -> Result<(Message, Message), Refusal>
    ensures { result ≡ open_of image.now }
{
    frame::verdict(image)?;
    open_words(words::word(image, 1), words::word(image, 2))
}
