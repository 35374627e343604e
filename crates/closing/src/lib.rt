// Closing a pair: the two messages as words, and their image.

#![tactic(auto)]

ghost use Rattle.pair.specs.Closing.{Closed};

use message::Message;
use refusal::Refusal;

// Closes a pair into a buffer of sixteen octets: 2, 7, 14 and 15 first, 14 and 15 second. On a refusal nothing is written.
pub fn close(first: Message, second: Message, image: &mut [u8]) -> Result<(), Refusal>
    ensures { Closed first second image.old result image.new }
{
    if image.len() != 16 {
        return Err(Refusal::of(refusal::BAD_LENGTH));
    }
    if !pair::is_pair(message::kind_of(first), message::kind_of(second)) {
        return Err(Refusal::of(refusal::BAD_PAIR));
    }
    let v = writing::encode(1, first)?;
    let w = writing::encode(2, second)?;
    words::put_image(v, w, image);
    Ok(())
}
