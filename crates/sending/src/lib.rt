// A sender of line levels (001, Annex A, Appendix 3, paragraphs 4 and 5).

#![tactic(auto)]

ghost use Rattle.std.specs.Prelude.{◌≡◌, ◌≤◌, length};
ghost use Rattle.line.specs.Sending.{next, levels_after, image_bits, Sent};

use refusal::Refusal;

// The level that tells a bit after a level: a one changes it.
fn tell(level: u8, bit: u8) -> u8
    requires { level ≤ 1 }
    ensures { (result ≡ next level bit) × (result ≤ 1) }
{
    if bit == 0 { level } else { 1 - level }
}

// The 128 levels of an image after a level.
fn put_levels(image: &[u8], previous: u8, levels: &mut [u8])
    requires { (length image.now ≡ 16) × (previous ≤ 1) × (length levels.old ≡ 128) }
    ensures { levels.new ≡ levels_after previous (image_bits image.now) }
{
    let mut level = previous;
    for (i, slot) in levels.iter_mut().enumerate() {
        level = tell(level, bits::bit(image, i + 1));
        *slot = level;
    }
}

// Sends a good image as 128 levels after the previous level: 2 image, 2 buffer, 1, 3, 4, 5.
pub fn send(image: &[u8], previous: u8, levels: &mut [u8]) -> Result<(), Refusal>
    ensures { Sent image.now previous levels.old result levels.new }
{
    if image.len() != 16 {
        return Err(Refusal::of(refusal::BAD_LENGTH));
    }
    if levels.len() != 128 {
        return Err(Refusal::of(refusal::BAD_LENGTH));
    }
    if 1 < previous {
        return Err(Refusal::of(refusal::BAD_LEVEL));
    }
    frame::verdict(image)?;
    put_levels(image, previous, levels);
    Ok(())
}
