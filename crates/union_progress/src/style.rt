//! How the progress of a run is shown.

/// How the progress is shown on standard error.
#[derive(Clone, Copy, Debug, PartialEq, Eq)]
pub enum Style {
    /// Not at all.
    Silent,
    /// As one line that is written over, and erased before anything else is written: for a terminal.
    Line,
    /// As a line every five seconds: for a file.
    Lines,
}

impl Style {
    /// By the environment's word, where there is one, and by whether standard error is a terminal: `1` shows it anywhere, `0` nowhere,
    /// and any other word is as none, by which it is shown on a terminal.
    pub fn of(word: Option<&[u8]>, is_terminal: bool) -> Style {
        match word {
            Some(b"0") => Style::Silent,
            _ if is_terminal => Style::Line,
            Some(b"1") => Style::Lines,
            _ => Style::Silent,
        }
    }

    /// The milliseconds from one line to the next.
    pub(crate) fn pause(self) -> u64 {
        match self {
            Style::Line => 200,
            Style::Silent | Style::Lines => 5_000,
        }
    }
}
