// A line of a price list, read.
ghost use Rattle.std.specs.Prelude.{◌≡◌, ◌+◌, ◌-◌, ◌*◌, ◌^◌, min, Some, None, IfOk, MatchOption, vec_items, if◌then◌else◌};
ghost use Rattle.std.specs.Option.{option_map};
ghost use Rattle.quotes.specs.Lines.{is_digit, number_of, dim_from, field_of, line_dims, trimmed};

use shapes::Dim;
use std::alloc::{AllocError, Global};

// A digit read after a number, which stays at the largest that it can be: the library's `parse` would refuse it.
fn with_digit(n: u32, b: u8) -> Option<u32>
    ensures { result ≡ (if is_digit b then Some (min (10 * n + (b - 48)) (2 ^ 32 - 1)) else None) }
{
    if !b.is_ascii_digit() {
        return None;
    }
    Some(n.saturating_mul(10).saturating_add(u32::from(b - b'0')))
}

fn number(text: &[u8]) -> Option<u32>
    ensures { result ≡ number_of text.now }
{
    if text.is_empty() {
        return None;
    }
    let mut n = 0;
    for b in text {
        n = with_digit(n, *b)?;
    }
    Some(n)
}

// The text before the first slash, and the text behind it: one with a slash is no number.
fn cut(text: &[u8]) -> Option<(&[u8], &[u8])>
    ensures { MatchOption result (field_of text.now ≡ None) (λ p. field_of text.now ≡ dim_from (number_of p.0.now) (number_of p.1.now)) }
{
    let slash = text.iter().position(|b| *b == b'/')?;
    Some((&text[..slash], &text[slash + 1..]))
}

fn field(text: &[u8]) -> Option<Dim>
    ensures { result ≡ field_of text.now }
{
    let (size, edge) = cut(text)?;
    Some(Dim {
        size: number(size)?,
        edge: number(edge)?,
    })
}

// The dimensions that a line names, or none where it is no list of fields.
pub(crate) fn read_dims(heap: Global, line: &[u8]) -> Result<Option<Vec<Dim>>, AllocError>
    ensures { IfOk result (λ o. option_map vec_items o ≡ line_dims line.now) }
{
    let mut dims = Vec::new(heap);
    for text in line.split(|b| *b == b' ') {
        let Some(d) = field(text) else {
            return Ok(None);
        };
        dims.push(d)?;
    }
    Ok(Some(dims))
}

// A line without the carriage return at its end.
pub(crate) fn trim(line: &[u8]) -> &[u8]
    ensures { result.now ≡ trimmed line.now }
{
    line.strip_suffix(b"\r").unwrap_or(line)
}
