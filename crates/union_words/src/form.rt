//! How an export shows its editions, as the words say.
ghost use Rattle.std.specs.Prelude.{◌≡◌};
ghost use Rattle.union_words.specs.Words;

use union_base::bytes::Bytes;

/// The form in which an export writes its records.
#[derive(Clone, Copy, Debug, PartialEq, Eq)]
pub enum Form {
    /// ISO 2709, with nothing between the records.
    Iso2709,
    /// MARC in JSON, a record on each line.
    Json,
}

/// How an export shows its editions.
#[derive(Clone, Copy, Debug, PartialEq, Eq)]
pub struct Exporting {
    /// The form of its records.
    pub form: Form,
    /// Whether each local field tells whose it is.
    pub owners: bool,
}

/// How an export shows its editions, by the first words `--json` and `--owners` where there are these, and the words after them.
/// Takes no memory.
pub(crate) fn exporting_in(words: &[Bytes]) -> (Exporting, &[Bytes])
    ensures exporting { result.0 ≡ (Words.exporting_in words.now).0 }
    ensures rest { result.1.now ≡ (Words.exporting_in words.now).1 }
{
    let (form, words) = form_in(words);
    let (owners, rest) = owners_in(words);
    (Exporting { form, owners }, rest)
}

/// The form, by a first word `--json` where there is one, and the words after it.
fn form_in(words: &[Bytes]) -> (Form, &[Bytes])
    ensures form { result.0 ≡ (Words.form_in words.now).0 }
    ensures rest { result.1.now ≡ (Words.form_in words.now).1 }
{
    match words {
        [word, rest @ ..] if is_json_word(word.bytes()) => (Form::Json, rest),
        _ => (Form::Iso2709, words),
    }
}

/// Whether local fields tell whose they are, by a first word `--owners` where there is one, and the words after it.
fn owners_in(words: &[Bytes]) -> (bool, &[Bytes])
    ensures owners { result.0 ≡ (Words.owners_in words.now).0 }
    ensures rest { result.1.now ≡ (Words.owners_in words.now).1 }
{
    match words {
        [word, rest @ ..] if is_owners_word(word.bytes()) => (true, rest),
        _ => (false, words),
    }
}

fn is_json_word(word: &[u8]) -> bool
    ensures { result ≡ Words.is_json_word word.now }
{
    word == b"--json".as_slice()
}

fn is_owners_word(word: &[u8]) -> bool
    ensures { result ≡ Words.is_owners_word word.now }
{
    word == b"--owners".as_slice()
}
