//! Whose cataloguing is trusted.
//!
//! Guarantee: `Preference::read` takes exactly the texts of specs/Preferences.antt, and `Preference::level` is its `level`.
//! Cost: no memory. A text is read in one walk, in which each code is compared with those before it, and a level takes one
//! comparison for each code.
ghost use Rattle.std.specs.Prelude.{◌≡◌, ◌<◌, [], ◌∷◌, ◌++◌, length, IsTrue, MatchOption, nat_eq, position, ◌==◌};
ghost use Rattle.std.specs.Bool.{OnTrue};
ghost use Rattle.std.specs.Cmp.Lexicographic.{pointwise};
ghost use Rattle.field_merge.specs.Preferences.{are_preferred, has_code, texts_between_commas, preference_of, level};
ghost use Rattle.field_merge.specs.PreferenceLaws.{unused};

use std::marker::Model;
use union_base::library_code::LibraryCode;

/// The most codes of a preference.
pub const MOST_CODES: usize = 64;

/// Some libraries, best first: 0 to `MOST_CODES` distinct codes, held in place. What their records say is preferred to what
/// the records of other libraries say. Contracts see it as the list of its codes.
#[derive(Clone, Copy, Debug)]
pub struct Preference {
    places: [LibraryCode; MOST_CODES],
    size: usize,
}

impl Model for Preference {
    ghost use Rattle.std.specs.Prelude.{List, ℕ, take, length, replicate, ◌++◌, ◌-◌};
    ghost use Rattle.field_merge.specs.Preferences.{most_codes};
    ghost use Rattle.field_merge.specs.PreferenceLaws.{IsFilled, unused, filled_places, filled_size};

    ghost Value = { List (List ℕ) };

    ghost view = { λ p. take p.size p.places };

    ghost invariant = { λ p. IsFilled p.places p.size };

    ghost inverse = { λ codes. record { places = codes ++ replicate (most_codes - length codes) unused; size = length codes } };

    ghost inverse_ok = { λ p filled i. record { places = filled_places p.places p.size filled i; size = filled_size p.places p.size filled i } };
}

impl Preference {
    /// The preference without codes: all libraries are alike. Takes no memory.
    pub fn none() -> Preference
        ensures { result ≡ [] }
    {
        Preference {
            places: [unused(); MOST_CODES],
            size: 0,
        }
    }

    /// The preference of this text: None exactly where it is not 1 to `MOST_CODES` distinct library codes, best first, with
    /// one comma between two. Takes no memory.
    pub fn read(text: &[u8]) -> Option<Preference>
        ensures { result ≡ preference_of text.now }
    {
        let mut preference = Preference::none();
        let mut rest = Some(text);
        while let Some(text) = rest {
            let (code, more) = first_text(text);
            if !preference.add(code) {
                return None;
            }
            rest = more;
        }
        Some(preference)
    }

    /// How the library's records are preferred: `MOST_CODES` less the library's place, counted from 0, and 0 where the library is
    /// not there. Takes no memory.
    pub fn level(&self, library: &LibraryCode) -> u8
        ensures { result ≡ level self.now library.now }
    {
        match place_of(self.codes(), library) {
            Some(place) => (MOST_CODES - place) as u8,
            None => 0,
        }
    }

    /// The codes, best first.
    fn codes(&self) -> &[LibraryCode]
        ensures value { result.now ≡ self.now }
        ensures preferred { IsTrue (are_preferred self.now) }
    {
        &self.places[..self.size]
    }

    /// Whether the code of this text may follow as the last one. Only then it is added.
    fn add(&mut self, text: &[u8]) -> bool
        ensures answer { result ≡ are_preferred (self.old ++ text.now ∷ []) }
        ensures added { OnTrue result (self.new ≡ self.old ++ text.now ∷ []) }
    {
        let Some(code) = LibraryCode::read(text) else {
            return false;
        };
        if self.size == MOST_CODES {
            return false;
        }
        if self.codes().contains(&code) {
            return false;
        }
        self.places[self.size] = code;
        self.size += 1;
        true
    }
}

/// The code that stands in the places that are not used.
fn unused() -> LibraryCode
    ensures { result ≡ unused }
{
    LibraryCode::read(b"0").unwrap()
}

/// The place of the library among the codes.
fn place_of(codes: &[LibraryCode], library: &LibraryCode) -> Option<usize>
    ensures { result ≡ position (λ code. pointwise nat_eq code library.now) codes.now }
{
    codes.iter().position(|code| code == library)
}

/// The text before the first comma, and the text after it: None where there is no comma.
fn first_text(text: &[u8]) -> (&[u8], Option<&[u8]>)
    ensures { MatchOption result.1 (texts_between_commas text.now ≡ result.0.now ∷ [])
        (λ rest. texts_between_commas text.now ≡ result.0.now ∷ texts_between_commas rest.now) }
{
    match first_comma(text) {
        Some(at) => (text.split_at(at).0, Some(text.split_at(at + 1).1)),
        None => (text, None),
    }
}

/// The place of the first comma.
fn first_comma(text: &[u8]) -> Option<usize>
    ensures { result ≡ position (λ b. b == 0x2C) text.now }
{
    text.iter().position(|b| *b == b',')
}
