//! A record that is published, and what a viewer answers of it.
ghost use Rattle.std.specs.Prelude.{◌≡◌};

use catalogue_core::history_entry::HistoryEntry;
use catalogue_query::query::Query;
use field_merge::preference::Preference;
use library_batches::batch_reader::BatchReader;
use snapshot_desk::viewer::Viewer;
use std::alloc::Global;
use union_base::bytes::Bytes;
use union_base::library_code::LibraryCode;
use union_base::memory::Memory;
use union_io::sure_source::SureSource;

/// A record with the control number `id`.
const ONE: &[u8; 114] =
    b"00114nam a2200061 a 4500001000300000008004100003245000800044\x1Eid\x1E240101s1999    xx                  eng d\x1E00\x1FaCat\x1E\x1D";

/// What a view answers: over how many turns, and how many lines of which first line.
pub type Seen = Option<(u64, bool)>;

/// A turn in which the library of that code loads the record.
pub fn entry_of(alloc: Global, library: &[u8]) -> Result<HistoryEntry, Memory> {
    let Some(library) = LibraryCode::read(library) else {
        return Err(Memory);
    };
    let mut source = SureSource::of(Bytes::of(alloc, ONE)?, 50);
    let mut reader = BatchReader::open(alloc, &Preference::none(), &library, 1_000)?;
    match reader.next(alloc, &mut source) {
        Ok(Some(batch)) => Ok(HistoryEntry { pass: 0, batch }),
        _ => Err(Memory),
    }
}

/// The turns over which the counts are answered, and whether the one line is this one.
pub fn counts(alloc: Global, viewer: &mut Viewer, line: &[u8]) -> Seen
    ensures { viewer.new.book ≡ viewer.old.book }
{
    match viewer.view(alloc, &Query::Count) {
        Ok((turns, told)) => match told.lines.as_slice() {
            [only] => Some((turns, only.bytes() == line)),
            _ => None,
        },
        Err(Memory) => None,
    }
}
