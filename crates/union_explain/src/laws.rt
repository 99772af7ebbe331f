//! What holds of frames and of reports. Each function here does nothing when it runs: its contract is the law.
ghost use Rattle.std.specs.Prelude.{◌≡◌, ◌≤◌, ◌<◌, ◌^◌, ℕ, List, IsTrue, map};
ghost use Rattle.iso2709_frame.specs.Frames.{frames};
ghost use Rattle.library_batches.specs.declared.refused.RefusedFrame.{RefusedFrame};
ghost use Rattle.union_base.specs.LibraryCodes.{is_library_code};
ghost use Rattle.union_explain.specs.Broken.{cut_at};
ghost use Rattle.union_explain.specs.Laws.{IsReadBack};
ghost use Rattle.union_explain.specs.Located.{located};

/// The frames that are located in a stream are the frames of the stream, in their order, and no others: those that every command
/// of the program cuts.
pub fn located_are_the_frames()
    ensures { (stream : List ℕ) → map cut_at (located stream) ≡ frames stream }
{}

/// Of a line on a refused frame, as every report of the program writes it, the library, the frame's number, the rule and the place
/// are read.
pub fn a_refused_line_is_read_back()
    ensures { (library : List ℕ) (frame : RefusedFrame) → IsTrue (is_library_code library)
        → 1 ≤ frame.frame → frame.frame < 2 ^ 64 → frame.place ≤ 99999
        → IsReadBack library frame }
{}
