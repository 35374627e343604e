// The kinds of message: their labels and layouts (001, Annex A, Appendix 5, and Annex C, Appendices 2 and 3).

#![tactic(auto)]

ghost use Rattle.std.specs.Prelude.{◌≡◌, ◌<◌, length};
ghost use Rattle.kind.specs.Layouts.{all_kinds, number_of, label_of};
ghost use Rattle.kind.specs.Labels.{kind_from, labelled_of, named_of};

use refusal::Refusal;

#[derive(Clone, Copy)]
pub enum Kind {
    Blank,
    S0,
    S3,
    S4,
    S4Plus,
    S5,
    S6,
    S8,
    S8Plus,
    S9,
}

// How many kinds there are.
pub const KINDS: usize = 10;

// The number of a kind, from 0: its place in every table that has a row for each kind.
pub fn number(k: Kind) -> usize
    ensures { (result ≡ number_of k) × (result < length all_kinds) }
{
    k as usize
}

// The labels in the order of the kinds' numbers.
const LABELS: [u8; KINDS] = [0, 46, 19, 17, 49, 18, 20, 21, 53, 5];

// The label of a kind.
pub fn label(k: Kind) -> u8
    ensures { result ≡ label_of k }
{
    LABELS[number(k)]
}

fn find_label(label: u64) -> Option<Kind>
    ensures { result ≡ kind_from all_kinds label }
{
    match label {
        0 => Some(Kind::Blank),
        46 => Some(Kind::S0),
        19 => Some(Kind::S3),
        17 => Some(Kind::S4),
        49 => Some(Kind::S4Plus),
        18 => Some(Kind::S5),
        20 => Some(Kind::S6),
        21 => Some(Kind::S8),
        53 => Some(Kind::S8Plus),
        5 => Some(Kind::S9),
        _ => None,
    }
}

// The kind that the label of a word names.
pub fn find_kind(word: u64) -> Option<Kind>
    ensures { result ≡ labelled_of word }
{
    find_label(word % 64)
}

// The kind that a label names: 6.
pub fn kind_named(label: u8) -> Result<Kind, Refusal>
    ensures { result ≡ named_of label }
{
    find_label(u64::from(label)).ok_or(Refusal::of(refusal::UNKNOWN_LABEL))
}
