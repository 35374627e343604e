// Fields side by side in a word: what is wrong with them by their rules, and values packed into one. Nothing here knows of Link 1.

#![tactic(auto)]

ghost use Rattle.std.specs.Prelude.{◌≡◌, ◌+◌, ◌≤◌, ◌<◌, ◌^◌, length};
ghost use Rattle.bits.specs.Numbers.{field_of};
ghost use Rattle.layout.specs.Trouble.{agreeing, differing, wrong};
ghost use Rattle.layout.specs.Rules.{rule_trouble, rule_misfit, total, ruled, packed_of};

// Why the bits of a field, or a value for it, are refused.
#[derive(Clone, Copy)]
pub enum Cause {
    Pattern,
    Spare,
    Unused,
    TooWide,
}

// What is wrong: the cause, and the bit where it begins. The lowest bit of a word is bit 1.
#[derive(Clone, Copy)]
pub struct Trouble {
    pub cause: Cause,
    pub bit: u8,
}

// What the bits of a field may be: anything; one number alone; zero; no code for which there is a one.
#[derive(Clone, Copy)]
pub enum Rule {
    Free,
    Pattern(u64),
    Spare,
    Without(u64),
}

// A field as the code has it: how many bits, and their rule.
#[derive(Clone, Copy)]
pub struct Slot(pub u32, pub Rule);

// Something is wrong from the bit of weight 2^at on.
fn wrong_at(cause: Cause, at: u32) -> Result<(), Trouble>
    requires { at < 255 }
    ensures { result ≡ wrong cause (at + 1) }
{
    let bit = (at + 1) as u8;
    Err(Trouble { cause, bit })
}

// On how many bits two numbers agree, up to the lowest at which they differ.
fn lowest(n: u64, x: u64) -> u32
    ensures { (result ≡ agreeing 64 n x) × (result ≤ 64) }
{
    u64::trailing_zeros(n ^ x)
}

// What is wrong with bits n that should be x.
fn compare(cause: Cause, at: u32, n: u64, x: u64) -> Result<(), Trouble>
    requires { at < 64 }
    ensures { result ≡ differing cause at 64 n x }
{
    if n == x {
        return Ok(());
    }
    wrong_at(cause, at + lowest(n, x))
}

// What is wrong with a code n that may be one of those that are not used.
fn check_code(at: u32, unused: u64, n: u64) -> Result<(), Trouble>
    requires { at < 64 }
    ensures { result ≡ rule_trouble at (Rule.Without unused) n }
{
    // no code above 63 has a place among them
    if 63 < n {
        return Ok(());
    }
    if (unused >> n) % 2 == 0 {
        return Ok(());
    }
    wrong_at(Cause::Unused, at)
}

// What is wrong with the bits n of a field by its rule.
fn check_rule(at: u32, rule: Rule, n: u64) -> Result<(), Trouble>
    requires { at < 64 }
    ensures { result ≡ rule_trouble at rule n }
{
    match rule {
        Rule::Free => Ok(()),
        Rule::Pattern(x) => compare(Cause::Pattern, at, n, x),
        Rule::Spare => compare(Cause::Spare, at, n, 0),
        Rule::Without(unused) => check_code(at, unused, n),
    }
}

// What is wrong with a field of a word. Most fields are free, and need not be taken out of the word.
fn check_field(word: u64, at: u32, slot: Slot) -> Result<(), Trouble>
    requires { at + slot.0 < 64 }
    ensures { result ≡ rule_trouble at slot.1 (field_of word at slot.0) }
{
    let Slot(width, rule) = slot;
    if let Rule::Free = rule {
        return Ok(());
    }
    check_rule(at, rule, bits::field(word, at, width))
}

// What is first wrong with the fields of a word above its `low` bits, by their rules.
pub fn find_trouble(word: u64, low: u32, slots: &[Slot]) -> Result<(), Trouble>
    requires { low + total slots.now < 64 }
    ensures { result ≡ ruled low slots.now word }
{
    let mut at = low;
    for slot in slots {
        check_field(word, at, *slot)?;
        at += slot.0;
    }
    // a message has no bit above its layout
    if word >> at == 0 {
        return Ok(());
    }
    wrong_at(Cause::Spare, at)
}

// What is wrong with a value for a field, by its width and its rule.
fn check_value(at: u32, slot: Slot, value: u64) -> Result<(), Trouble>
    requires { at + slot.0 < 64 }
    ensures { result ≡ rule_misfit at slot value }
{
    let Slot(width, rule) = slot;
    if value >> width != 0 {
        return wrong_at(Cause::TooWide, at);
    }
    check_rule(at, rule, value)
}

// The values put side by side above the `low` bits of a word, if each fits its width and keeps its rule.
pub fn pack(word: u64, low: u32, slots: &[Slot], values: &[u64]) -> Result<u64, Trouble>
    requires { (word < 2 ^ low) × (low + total slots.now < 64) × (length slots.now ≡ length values.now) }
    ensures { result ≡ packed_of word low slots.now values.now }
{
    let mut packed = word;
    let mut at = low;
    for (slot, value) in slots.iter().zip(values) {
        check_value(at, *slot, *value)?;
        packed = bits::place(packed, at, slot.0, *value);
        at += slot.0;
    }
    Ok(packed)
}
