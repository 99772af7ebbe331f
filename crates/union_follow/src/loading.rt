//! The loading of one library's opened file: each batch is a turn that is published, and the report is made.
ghost use Rattle.std.specs.Prelude.{◌≡◌, [], OnOk};
ghost use Rattle.iso2709_frame.specs.Frames.{frames};
ghost use Rattle.catalogue_lock.specs.History.{changes_of};
ghost use Rattle.library_batches.specs.Reading.{begun};
ghost use Rattle.library_stream.specs.declared.frame_reader.TheConstants.{LARGEST_SOURCE};
ghost use Rattle.catalogue_core.specs.Entries.{entries_of};
ghost use Rattle.library_batches.specs.Reports.{counts_of};
ghost use Rattle.union_files.specs.Readings.{Reads};
ghost use Rattle.union_follow.specs.Turning.{AreTurned, HasTurned, IsShown, IsTurned};

use crate::turning::{Load, publish_batch};
use field_merge::preference::Preference;
use library_batches::batch_reader::BatchReader;
use library_batches::outcome_counts::OutcomeCounts;
use library_batches::report::Report;
use library_batches::stop::Stop;
use library_stream::frame_reader::LARGEST_SOURCE;
use std::alloc::Global;
use std::sync::Wait;
use union_base::memory::Memory;
use union_files::opened_file::OpenedFile;
use union_io::source::Source;

/// Applies and publishes the batches of a source one after the other under that number, and counts what came of them.
fn load_batches<R: Wait, S: Source>(
    rt: &R,
    alloc: Global,
    reader: &mut BatchReader,
    load: &mut Load,
    pass: u32,
    source: &mut S,
) -> Result<OutcomeCounts, Stop>
    requires reader { reader.old ≡ begun [] reader.old.library LARGEST_SOURCE }
    requires shown { IsShown load.old.catalogue.history load.old.publisher }
    requires new { changes_of pass (entries_of load.old.catalogue.history) ≡ [] }
    ensures name { S.name source.new ≡ S.name source.old }
    ensures book { load.new.publisher.book ≡ load.old.publisher.book }
    ensures reports { load.new.reports ≡ load.old.reports }
    ensures turned { OnOk result (HasTurned pass load.old.catalogue.history
        load.new.catalogue.history) }
    ensures shown { OnOk result (IsShown load.new.catalogue.history load.new.publisher) }
    ensures reads { Reads LARGEST_SOURCE result
        (record {
          told = S.left source.old;
          before = S.faults source.old;
          after = S.faults
              source.new;
        })
        (λ counts bytes. AreTurned pass reader.old.library (frames bytes)
        load.old.catalogue.history load.new.catalogue.history reader.new counts) }
{
    let mut counts = OutcomeCounts::new();
    while let Some(batch) = reader.next(alloc, source)? {
        let found = publish_batch(rt, alloc, load, pass, batch)?;
        counts.count(found.as_slice());
    }
    Ok(counts)
}

/// The report of a reader that has read all of its source, with these counts.
fn report_of(reader: BatchReader, counts: OutcomeCounts) -> Report
    ensures frames { result.frames ≡ reader.frames }
    ensures refused { result.refused.items ≡ reader.refused }
    ensures counts { counts_of result ≡ counts }
{
    Report {
        frames: reader.frames(),
        refused: reader.into_refused(),
        added: counts.added,
        replaced: counts.replaced,
        removed: counts.removed,
        absent: counts.absent,
    }
}

/// Loads the file of a library under that number, and adds its report.
pub fn load_file<R: Wait, S: Source>(
    rt: &R,
    alloc: Global,
    file: &mut OpenedFile<S>,
    load: &mut Load,
    pass: u32,
) -> Result<(), Stop>
    requires shown { IsShown load.old.catalogue.history load.old.publisher }
    requires new { changes_of pass (entries_of load.old.catalogue.history) ≡ [] }
    ensures library { file.new.library ≡ file.old.library }
    ensures name { S.name file.new.source ≡ S.name file.old.source }
    ensures book { load.new.publisher.book ≡ load.old.publisher.book }
    ensures turned { OnOk result (HasTurned pass load.old.catalogue.history
        load.new.catalogue.history) }
    ensures shown { OnOk result (IsShown load.new.catalogue.history load.new.publisher) }
    ensures reads { Reads LARGEST_SOURCE result
        (record {
          told = S.left file.old.source;
          before = S.faults file.old.source;
          after = S.faults file.new.source;
        })
        (λ done bytes. IsTurned pass file.old.library (frames bytes)
        load.old.catalogue.history load.new.catalogue.history load.old.reports load.new.reports) }
{
    let mut reader = BatchReader::open(alloc, &Preference::none(), &file.library, LARGEST_SOURCE)?;
    let counts = load_batches(rt, alloc, &mut reader, load, pass, &mut file.source)?;
    let report = report_of(reader, counts);
    match load.reports.add(&file.library, &report) {
        Ok(()) => Ok(()),
        Err(Memory) => Err(Stop::Memory),
    }
}
