// How many chunks of a source can't be read.
ghost use Rattle.std.specs.Prelude.{◌≡◌, ◌≤◌, length};
ghost use Rattle.shapes.specs.Arrays.{volume};
ghost use Rattle.sources.specs.Meanings.{means};
ghost use Rattle.runs.specs.Surveys.{unreadable_chunks};
ghost use Rattle.listings.specs.Making.{unfetched_count};

use measures::Measure;
use sources::{Shaped, Source};

// Each chunk is fetched once. The buffer should have V cells; into a shorter one no chunk can be fetched, so all count.
pub(crate) fn count_unreadable<M: Measure, S: Source<M>>(source: &mut S, buffer: &mut [M]) -> u64
    ensures same { means S.Shaped.told S.contents source.new ≡ means S.Shaped.told S.contents source.old }
    ensures fetched { result ≡ unfetched_count (means S.Shaped.told S.contents source.old) (length buffer.old) }
    ensures counted { volume (S.Shaped.told source.old) ≤ length buffer.old → result ≡ unreadable_chunks (means S.Shaped.told S.contents source.old) }
{
    let mut count = 0;
    for number in 0..source.shape().total_chunks() {
        count += u64::from(source.fetch(number, buffer).is_err());
    }
    count
}
