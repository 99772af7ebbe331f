//! The loading of one library.
ghost use Rattle.std.specs.Prelude.{◌≡◌};
ghost use Rattle.catalogue_lock.specs.Tokens.{view};
ghost use Rattle.library_batches.specs.Reports.{IsBlank};

use crate::end::End;
use crate::served::Served;
use catalogue_lock::pass::Pass;
use field_merge::preference::Preference;
use library_batches::report::Report;
use std::alloc::Global;
use union_base::library_code::LibraryCode;

/// The loading of one library: its source, of which `limit` bytes are read, the preference by which its records are loaded, and the
/// pass that makes its turns. The report and the end are told when it was run.
#[derive(Drop)]
pub struct Session<S> {
    pub number: u32,
    pub library: LibraryCode,
    pub source: S,
    pub limit: u64,
    pub prefer: Preference,
    pub pass: Pass<Served>,
    pub report: Report,
    pub end: End,
}

impl<S> Session<S> {
    /// A session that was not run, under the number of its pass. Takes no memory.
    pub fn new(
        alloc: Global,
        library: LibraryCode,
        source: S,
        limit: u64,
        prefer: &Preference,
        pass: Pass<Served>,
    ) -> Session<S>
        ensures number { result.number ≡ (view pass).number }
        ensures library { result.library ≡ library }
        ensures source { result.source ≡ source }
        ensures limit { result.limit ≡ limit }
        ensures prefer { result.prefer ≡ prefer.now }
        ensures pass { result.pass ≡ pass }
        ensures report { IsBlank result.report }
        ensures end { result.end ≡ End.NotRun }
    {
        Session {
            number: pass.number(),
            library,
            source,
            limit,
            prefer: *prefer,
            pass,
            report: Report::blank(alloc),
            end: End::NotRun,
        }
    }
}
