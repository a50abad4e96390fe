// What stops a listing.
ghost use Rattle.std.specs.Prelude.{◌≡◌};
ghost use Rattle.listings.specs.Refusals.{list_refusal};
ghost use Rattle.listings.specs.declared.refusals.ListRefusal.TheVariants.{File as of_file, Cells as of_cells};

use chunk_files::FileRefusal;
use plans::TooFewCells;
use shapes::Cause;

// Why a file is not listed.
#[derive(Clone, Copy, PartialEq, Eq, Debug)]
pub(crate) enum ListRefusal {
    File(FileRefusal),
    Cells(TooFewCells),
}

impl From<FileRefusal> for ListRefusal {
    ghost from_gives = { λ x y. y ≡ of_file x };

    fn from(x: FileRefusal) -> ListRefusal {
        ListRefusal::File(x)
    }
}

impl From<TooFewCells> for ListRefusal {
    ghost from_gives = { λ x y. y ≡ of_cells x };

    fn from(x: TooFewCells) -> ListRefusal {
        ListRefusal::Cells(x)
    }
}

impl Cause for ListRefusal {
    ghost refusal = { list_refusal };

    fn number(&self) -> u32 {
        match self {
            ListRefusal::File(e) => e.number(),
            ListRefusal::Cells(e) => e.number(),
        }
    }

    fn place(&self) -> u64 {
        match self {
            ListRefusal::File(e) => e.place(),
            ListRefusal::Cells(e) => e.place(),
        }
    }
}
