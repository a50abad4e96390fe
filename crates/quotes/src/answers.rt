// What is told of a line.
ghost use Rattle.std.specs.Prelude.{◌≡◌, ◌*◌, ◌^◌, ◌<◌, ◌≤◌, Some, IfOk, string_bytes};
ghost use Rattle.shapes.specs.Limits.{shape_fault};
ghost use Rattle.quotes.specs.Texts.{bytes_text, cells_text, checked_text, quote_text};

use crate::lines::{read_dims, trim};
use heads::{DimsLine, RefusedLines};
use plans::Plan;
use shapes::{Cause, Dim, Shape};
use std::alloc::{AllocError, Global};
use std::fmt;

const CONTROLLER_BYTES: u64 = 98_304;

// What cells of one measure take, and whether a controller has room for them.
#[derive(Clone, Copy)]
struct Room<'a> {
    letter: &'a str,
    bytes: u64,
}

impl fmt::Display for Room<'_> {
    ghost output = { λ room. Some (bytes_text room.letter.now room.bytes) };

    fn fmt<W: fmt::Write>(&self, f: &mut fmt::Formatter<W>) -> fmt::Result {
        let letter = self.letter;
        let bytes = self.bytes;
        if bytes <= CONTROLLER_BYTES {
            return write!(f, " {letter} {bytes} FITS");
        }
        write!(f, " {letter} {bytes} OVER")
    }
}

// The need, with what it takes for each measure. The letters and the bytes of a cell are those of the controller: quotes know no measures.
#[derive(Clone, Copy)]
struct Cells {
    need: u64,
    ghost small: { need ≤ 2 ^ 40 },
}

impl fmt::Display for Cells {
    ghost output = { λ cells. Some (cells_text cells.need) };

    fn fmt<W: fmt::Write>(&self, f: &mut fmt::Formatter<W>) -> fmt::Result {
        let need = self.need;
        let total = Room {
            letter: "T",
            bytes: 16 * need,
        };
        let range = Room {
            letter: "R",
            bytes: 8 * need,
        };
        let marks = Room {
            letter: "M",
            bytes: 8 * need,
        };
        write!(f, "CELLS {need}{total}{range}{marks}\n")
    }
}

// The lines of a shape, or those of its refusal.
fn shape_answer(heap: Global, dims: &[Dim]) -> Result<String, AllocError>
    ensures { IfOk result (λ s. string_bytes s ≡ checked_text (shape_fault dims.now) dims.now) }
{
    match Shape::new(dims) {
        Ok(shape) => {
            let line = DimsLine(dims);
            let cells = Cells {
                need: Plan::of(&shape).need(),
            };
            format!(in heap; "{line}{cells}")
        }
        Err(e) => {
            let refused = RefusedLines {
                number: e.number(),
                place: e.place(),
            };
            refused.to_string(heap)
        }
    }
}

/// What is told of the line of this number: two lines for a shape or a refused one, else that it is no shape.
pub fn answer_line(heap: Global, number: u64, line: &[u8]) -> Result<String, AllocError>
    ensures { IfOk result (λ s. string_bytes s ≡ quote_text number line.now) }
{
    match read_dims(heap, trim(line))? {
        Some(dims) => shape_answer(heap, dims.as_slice()),
        None => format!(in heap; "LINE {number} IS NO SHAPE\n"),
    }
}
