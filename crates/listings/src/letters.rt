// The letter that may stand before a file.
ghost use Rattle.std.specs.Prelude.{◌≡◌};
ghost use Rattle.listings.specs.Listings.{named_kind, asked};

use measures::{Marks, Measure, Range, Total};

// The measure that a letter names. A letter is known at run time and a measure is a type, so there is an arm for each.
#[derive(Clone, Copy, PartialEq, Eq, Debug)]
pub(crate) enum Kind {
    Total,
    Range,
    Marks,
}

fn named_kind(letter: u8) -> Option<Kind>
    ensures { result ≡ named_kind letter }
{
    match letter {
        Total::LETTER => Some(Kind::Total),
        Range::LETTER => Some(Kind::Range),
        Marks::LETTER => Some(Kind::Marks),
        _ => None,
    }
}

// The measure that is asked for, and the bytes of the file.
pub(crate) fn read_letter(input: &[u8]) -> (Kind, &[u8])
    ensures kind { result.0 ≡ (asked input.now).0 }
    ensures file { result.1.now ≡ (asked input.now).1 }
{
    let Some((letter, file)) = input.split_first() else {
        return (Kind::Total, input);
    };
    match named_kind(*letter) {
        Some(kind) => (kind, file),
        None => (Kind::Total, input),
    }
}
