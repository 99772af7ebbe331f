//! What holds of the text of `watch`, for whoever reasons about it. Each function is empty, and its clause is the law.
ghost use Rattle.union_watch.specs.Laws.{TurnLinesAreHistory, WatchTextHasOneHistory};

/// The lines on the turns stand for one history: where the streams of distinct libraries interleave in a history, dealing the
/// batches of each stream out by the libraries that the lines name gives that history back.
pub fn turn_lines_are_history()
    ensures { TurnLinesAreHistory }
{}

/// The bytes that `watch` writes determine the history: of two histories in which the streams of distinct libraries interleave,
/// the same text is written only where they are one.
pub fn watch_text_has_one_history()
    ensures { WatchTextHasOneHistory }
{}
