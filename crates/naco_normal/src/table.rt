//! The letters of a text whose characters all lie below U+0500: Latin, Greek and Cyrillic, and the marks that combine
//! with them. Each character is looked up in one table.
//!
//! No character there moves past another that leaves letters too when a text is put in canonical order, so the letters
//! of such a text are those of its characters in turn, and no list of decomposed or folded characters is made.
ghost use Rattle.std.specs.Prelude.{◌≡◌, ◌<◌, ◌++◌, ◌∷◌, [], chars, IfOk, OnOk, IfSome};
ghost use Rattle.naco_normal.specs.Normal.{letters};

use crate::letters::letters;
use std::alloc::Global;
use union_base::memory::Memory;

/// The mark of a character that is deleted.
const DELETED: char = '\0';

/// The mark of a character that leaves several letters, or one that is a mark here.
const SEVERAL: char = '\x01';

/// The first character that the table lacks.
const END: char = '\u{500}';

/// The letters of the text, or `None` where a character is not in the table.
pub(crate) fn letters_by_table(alloc: Global, text: &str) -> Result<Option<Vec<char>>, Memory>
    ensures { IfOk result (λ some. IfSome some (λ v. v.items ≡ letters (chars text.now))) }
{
    let mut read = Vec::with_capacity(alloc, text.len())?;
    for c in text.chars() {
        if c >= END {
            return Ok(None);
        }
        push_read(alloc, &mut read, c)?;
    }
    Ok(Some(read))
}

/// Appends what the character leaves.
fn push_read(alloc: Global, read: &mut Vec<char>, c: char) -> Result<(), Memory>
    requires { c < 0x500 }
    ensures { OnOk result (read.new.items ≡ read.old.items ++ letters (c ∷ [])) }
{
    let letter = LETTERS[c as usize];
    if letter == SEVERAL {
        return push_several(alloc, read, c);
    }
    if letter != DELETED {
        read.push(letter)?;
    }
    Ok(())
}

/// The same of a character that leaves several letters.
fn push_several(alloc: Global, read: &mut Vec<char>, c: char) -> Result<(), Memory>
    ensures { OnOk result (read.new.items ≡ read.old.items ++ letters (c ∷ [])) }
{
    match c {
        'ß' => push_two(read, 's', 's'),
        'Æ' | 'æ' => push_two(read, 'a', 'e'),
        'Œ' | 'œ' => push_two(read, 'o', 'e'),
        'Þ' | 'þ' => push_two(read, 't', 'h'),
        _ => {
            read.extend_from_slice(&letters(alloc, &[c])?)?;
            Ok(())
        }
    }
}

fn push_two(read: &mut Vec<char>, first: char, second: char) -> Result<(), Memory>
    ensures { OnOk result (read.new.items ≡ read.old.items ++ first ∷ second ∷ []) }
{
    read.push(first)?;
    read.push(second)?;
    Ok(())
}

/// What each character below U+0500 leaves: one letter, or a mark.
static LETTERS: [char; 0x500] = [
    SEVERAL, SEVERAL, '\x02', '\x03', '\x04', '\x05', '\x06', '\x07', '\x08', '\x09', '\x0a',
    '\x0b', '\x0c', '\x0d', '\x0e', '\x0f', '\x10', '\x11', '\x12', '\x13', '\x14', '\x15', '\x16',
    '\x17', '\x18', '\x19', '\x1a', '\x1b', '\x1c', '\x1d', '\x1e', '\x1f', ' ', '!', '"', '#',
    '$', '%', '&', DELETED, '(', ')', '*', '+', ',', '-', '.', '/', '0', '1', '2', '3', '4', '5',
    '6', '7', '8', '9', ':', ';', '<', '=', '>', '?', '@', 'a', 'b', 'c', 'd', 'e', 'f', 'g', 'h',
    'i', 'j', 'k', 'l', 'm', 'n', 'o', 'p', 'q', 'r', 's', 't', 'u', 'v', 'w', 'x', 'y', 'z',
    DELETED, '\\', DELETED, '^', '_', '`', 'a', 'b', 'c', 'd', 'e', 'f', 'g', 'h', 'i', 'j', 'k',
    'l', 'm', 'n', 'o', 'p', 'q', 'r', 's', 't', 'u', 'v', 'w', 'x', 'y', 'z', '{', '|', '}', '~',
    '\x7f', '\u{80}', '\u{81}', '\u{82}', '\u{83}', '\u{84}', '\u{85}', '\u{86}', '\u{87}',
    '\u{88}', '\u{89}', '\u{8a}', '\u{8b}', '\u{8c}', '\u{8d}', '\u{8e}', '\u{8f}', '\u{90}',
    '\u{91}', '\u{92}', '\u{93}', '\u{94}', '\u{95}', '\u{96}', '\u{97}', '\u{98}', '\u{99}',
    '\u{9a}', '\u{9b}', '\u{9c}', '\u{9d}', '\u{9e}', '\u{9f}', ' ', '¡', '¢', '£', '¤', '¥', '¦',
    '§', ' ', '©', 'a', '«', '¬', '\u{ad}', '®', ' ', '°', '±', '2', '3', ' ', 'μ', '¶', '·', ' ',
    '1', 'o', '»', SEVERAL, SEVERAL, SEVERAL, '¿', 'a', 'a', 'a', 'a', 'a', 'a', SEVERAL, 'c', 'e',
    'e', 'e', 'e', 'i', 'i', 'i', 'i', 'd', 'n', 'o', 'o', 'o', 'o', 'o', '×', 'o', 'u', 'u', 'u',
    'u', 'y', SEVERAL, SEVERAL, 'a', 'a', 'a', 'a', 'a', 'a', SEVERAL, 'c', 'e', 'e', 'e', 'e',
    'i', 'i', 'i', 'i', 'd', 'n', 'o', 'o', 'o', 'o', 'o', '÷', 'o', 'u', 'u', 'u', 'u', 'y',
    SEVERAL, 'y', 'a', 'a', 'a', 'a', 'a', 'a', 'c', 'c', 'c', 'c', 'c', 'c', 'c', 'c', 'd', 'd',
    'd', 'd', 'e', 'e', 'e', 'e', 'e', 'e', 'e', 'e', 'e', 'e', 'g', 'g', 'g', 'g', 'g', 'g', 'g',
    'g', 'h', 'h', 'ħ', 'ħ', 'i', 'i', 'i', 'i', 'i', 'i', 'i', 'i', 'i', 'i', SEVERAL, SEVERAL,
    'j', 'j', 'k', 'k', 'ĸ', 'l', 'l', 'l', 'l', 'l', 'l', SEVERAL, SEVERAL, 'l', 'l', 'n', 'n',
    'n', 'n', 'n', 'n', 'n', 'ŋ', 'ŋ', 'o', 'o', 'o', 'o', 'o', 'o', SEVERAL, SEVERAL, 'r', 'r',
    'r', 'r', 'r', 'r', 's', 's', 's', 's', 's', 's', 's', 's', 't', 't', 't', 't', 'ŧ', 'ŧ', 'u',
    'u', 'u', 'u', 'u', 'u', 'u', 'u', 'u', 'u', 'u', 'u', 'w', 'w', 'y', 'y', 'y', 'z', 'z', 'z',
    'z', 'z', 'z', 's', 'ƀ', 'ɓ', 'ƃ', 'ƃ', 'ƅ', 'ƅ', 'ɔ', 'ƈ', 'ƈ', 'ɖ', 'ɗ', 'ƌ', 'ƌ', 'ƍ', 'ǝ',
    'ə', 'ɛ', 'ƒ', 'ƒ', 'ɠ', 'ɣ', 'ƕ', 'ɩ', 'ɨ', 'ƙ', 'ƙ', 'ƚ', 'ƛ', 'ɯ', 'ɲ', 'ƞ', 'ɵ', 'o', 'o',
    'ƣ', 'ƣ', 'ƥ', 'ƥ', 'ʀ', 'ƨ', 'ƨ', 'ʃ', 'ƪ', 'ƫ', 'ƭ', 'ƭ', 'ʈ', 'u', 'u', 'ʊ', 'ʋ', 'ƴ', 'ƴ',
    'ƶ', 'ƶ', 'ʒ', 'ƹ', 'ƹ', 'ƺ', 'ƻ', 'ƽ', 'ƽ', 'ƾ', 'ƿ', 'ǀ', 'ǁ', 'ǂ', 'ǃ', SEVERAL, SEVERAL,
    SEVERAL, SEVERAL, SEVERAL, SEVERAL, SEVERAL, SEVERAL, SEVERAL, 'a', 'a', 'i', 'i', 'o', 'o',
    'u', 'u', 'u', 'u', 'u', 'u', 'u', 'u', 'u', 'u', 'ǝ', 'a', 'a', 'a', 'a', SEVERAL, SEVERAL,
    'ǥ', 'ǥ', 'g', 'g', 'k', 'k', 'o', 'o', 'o', 'o', 'ʒ', 'ʒ', 'j', SEVERAL, SEVERAL, SEVERAL,
    'g', 'g', 'ƕ', 'ƿ', 'n', 'n', 'a', 'a', SEVERAL, SEVERAL, 'o', 'o', 'a', 'a', 'a', 'a', 'e',
    'e', 'e', 'e', 'i', 'i', 'i', 'i', 'o', 'o', 'o', 'o', 'r', 'r', 'r', 'r', 'u', 'u', 'u', 'u',
    's', 's', 't', 't', 'ȝ', 'ȝ', 'h', 'h', 'ƞ', 'ȡ', 'ȣ', 'ȣ', 'ȥ', 'ȥ', 'a', 'a', 'e', 'e', 'o',
    'o', 'o', 'o', 'o', 'o', 'o', 'o', 'y', 'y', 'ȴ', 'ȵ', 'ȶ', 'ȷ', 'ȸ', 'ȹ', 'ⱥ', 'ȼ', 'ȼ', 'ƚ',
    'ⱦ', 'ȿ', 'ɀ', 'ɂ', 'ɂ', 'ƀ', 'ʉ', 'ʌ', 'ɇ', 'ɇ', 'ɉ', 'ɉ', 'ɋ', 'ɋ', 'ɍ', 'ɍ', 'ɏ', 'ɏ', 'ɐ',
    'ɑ', 'ɒ', 'ɓ', 'ɔ', 'ɕ', 'ɖ', 'ɗ', 'ɘ', 'ə', 'ɚ', 'ɛ', 'ɜ', 'ɝ', 'ɞ', 'ɟ', 'ɠ', 'ɡ', 'ɢ', 'ɣ',
    'ɤ', 'ɥ', 'ɦ', 'ɧ', 'ɨ', 'ɩ', 'ɪ', 'ɫ', 'ɬ', 'ɭ', 'ɮ', 'ɯ', 'ɰ', 'ɱ', 'ɲ', 'ɳ', 'ɴ', 'ɵ', 'ɶ',
    'ɷ', 'ɸ', 'ɹ', 'ɺ', 'ɻ', 'ɼ', 'ɽ', 'ɾ', 'ɿ', 'ʀ', 'ʁ', 'ʂ', 'ʃ', 'ʄ', 'ʅ', 'ʆ', 'ʇ', 'ʈ', 'ʉ',
    'ʊ', 'ʋ', 'ʌ', 'ʍ', 'ʎ', 'ʏ', 'ʐ', 'ʑ', 'ʒ', 'ʓ', 'ʔ', 'ʕ', 'ʖ', 'ʗ', 'ʘ', 'ʙ', 'ʚ', 'ʛ', 'ʜ',
    'ʝ', 'ʞ', 'ʟ', 'ʠ', 'ʡ', 'ʢ', 'ʣ', 'ʤ', 'ʥ', 'ʦ', 'ʧ', 'ʨ', 'ʩ', 'ʪ', 'ʫ', 'ʬ', 'ʭ', 'ʮ', 'ʯ',
    'h', 'ɦ', 'j', 'r', 'ɹ', 'ɻ', 'ʁ', 'w', 'y', DELETED, DELETED, DELETED, DELETED, DELETED,
    DELETED, DELETED, DELETED, DELETED, '˂', '˃', '˄', '˅', DELETED, DELETED, DELETED, DELETED,
    DELETED, DELETED, DELETED, DELETED, DELETED, DELETED, DELETED, DELETED, '˒', '˓', '˔', '˕',
    '˖', '˗', ' ', ' ', ' ', ' ', ' ', ' ', '˞', '˟', 'ɣ', 'l', 's', 'x', 'ʕ', '˥', '˦', '˧', '˨',
    '˩', '˪', '˫', DELETED, '˭', DELETED, '˯', '˰', '˱', '˲', '˳', '˴', '˵', '˶', '˷', '˸', '˹',
    '˺', '˻', '˼', '˽', '˾', '˿', DELETED, DELETED, DELETED, DELETED, DELETED, DELETED, DELETED,
    DELETED, DELETED, DELETED, DELETED, DELETED, DELETED, DELETED, DELETED, DELETED, DELETED,
    DELETED, DELETED, DELETED, DELETED, DELETED, DELETED, DELETED, DELETED, DELETED, DELETED,
    DELETED, DELETED, DELETED, DELETED, DELETED, DELETED, DELETED, DELETED, DELETED, DELETED,
    DELETED, DELETED, DELETED, DELETED, DELETED, DELETED, DELETED, DELETED, DELETED, DELETED,
    DELETED, DELETED, DELETED, DELETED, DELETED, DELETED, DELETED, DELETED, DELETED, DELETED,
    DELETED, DELETED, DELETED, DELETED, DELETED, DELETED, DELETED, DELETED, DELETED, DELETED,
    DELETED, DELETED, 'ι', DELETED, DELETED, DELETED, DELETED, DELETED, DELETED, DELETED, DELETED,
    DELETED, DELETED, DELETED, DELETED, DELETED, DELETED, DELETED, DELETED, DELETED, DELETED,
    DELETED, DELETED, DELETED, DELETED, DELETED, DELETED, DELETED, DELETED, DELETED, DELETED,
    DELETED, DELETED, DELETED, DELETED, DELETED, DELETED, DELETED, DELETED, DELETED, DELETED,
    DELETED, DELETED, DELETED, DELETED, 'ͱ', 'ͱ', 'ͳ', 'ͳ', DELETED, '͵', 'ͷ', 'ͷ', '\u{378}',
    '\u{379}', SEVERAL, 'ͻ', 'ͼ', 'ͽ', ';', 'ϳ', '\u{380}', '\u{381}', '\u{382}', '\u{383}', ' ',
    ' ', 'α', '·', 'ε', 'η', 'ι', '\u{38b}', 'ο', '\u{38d}', 'υ', 'ω', 'ι', 'α', 'β', 'γ', 'δ',
    'ε', 'ζ', 'η', 'θ', 'ι', 'κ', 'λ', 'μ', 'ν', 'ξ', 'ο', 'π', 'ρ', '\u{3a2}', 'σ', 'τ', 'υ', 'φ',
    'χ', 'ψ', 'ω', 'ι', 'υ', 'α', 'ε', 'η', 'ι', 'υ', 'α', 'β', 'γ', 'δ', 'ε', 'ζ', 'η', 'θ', 'ι',
    'κ', 'λ', 'μ', 'ν', 'ξ', 'ο', 'π', 'ρ', 'σ', 'σ', 'τ', 'υ', 'φ', 'χ', 'ψ', 'ω', 'ι', 'υ', 'ο',
    'υ', 'ω', 'ϗ', 'β', 'θ', 'υ', 'υ', 'υ', 'φ', 'π', 'ϗ', 'ϙ', 'ϙ', 'ϛ', 'ϛ', 'ϝ', 'ϝ', 'ϟ', 'ϟ',
    'ϡ', 'ϡ', 'ϣ', 'ϣ', 'ϥ', 'ϥ', 'ϧ', 'ϧ', 'ϩ', 'ϩ', 'ϫ', 'ϫ', 'ϭ', 'ϭ', 'ϯ', 'ϯ', 'κ', 'ρ', 'σ',
    'ϳ', 'θ', 'ε', '϶', 'ϸ', 'ϸ', 'σ', 'ϻ', 'ϻ', 'ϼ', 'ͻ', 'ͼ', 'ͽ', 'е', 'е', 'ђ', 'г', 'є', 'ѕ',
    'і', 'і', 'ј', 'љ', 'њ', 'ћ', 'к', 'и', 'у', 'џ', 'а', 'б', 'в', 'г', 'д', 'е', 'ж', 'з', 'и',
    'и', 'к', 'л', 'м', 'н', 'о', 'п', 'р', 'с', 'т', 'у', 'ф', 'х', 'ц', 'ч', 'ш', 'щ', 'ъ', 'ы',
    'ь', 'э', 'ю', 'я', 'а', 'б', 'в', 'г', 'д', 'е', 'ж', 'з', 'и', 'и', 'к', 'л', 'м', 'н', 'о',
    'п', 'р', 'с', 'т', 'у', 'ф', 'х', 'ц', 'ч', 'ш', 'щ', 'ъ', 'ы', 'ь', 'э', 'ю', 'я', 'е', 'е',
    'ђ', 'г', 'є', 'ѕ', 'і', 'і', 'ј', 'љ', 'њ', 'ћ', 'к', 'и', 'у', 'џ', 'ѡ', 'ѡ', 'ѣ', 'ѣ', 'ѥ',
    'ѥ', 'ѧ', 'ѧ', 'ѩ', 'ѩ', 'ѫ', 'ѫ', 'ѭ', 'ѭ', 'ѯ', 'ѯ', 'ѱ', 'ѱ', 'ѳ', 'ѳ', 'ѵ', 'ѵ', 'ѵ', 'ѵ',
    'ѹ', 'ѹ', 'ѻ', 'ѻ', 'ѽ', 'ѽ', 'ѿ', 'ѿ', 'ҁ', 'ҁ', '҂', DELETED, DELETED, DELETED, DELETED,
    DELETED, DELETED, DELETED, 'ҋ', 'ҋ', 'ҍ', 'ҍ', 'ҏ', 'ҏ', 'ґ', 'ґ', 'ғ', 'ғ', 'ҕ', 'ҕ', 'җ',
    'җ', 'ҙ', 'ҙ', 'қ', 'қ', 'ҝ', 'ҝ', 'ҟ', 'ҟ', 'ҡ', 'ҡ', 'ң', 'ң', 'ҥ', 'ҥ', 'ҧ', 'ҧ', 'ҩ', 'ҩ',
    'ҫ', 'ҫ', 'ҭ', 'ҭ', 'ү', 'ү', 'ұ', 'ұ', 'ҳ', 'ҳ', 'ҵ', 'ҵ', 'ҷ', 'ҷ', 'ҹ', 'ҹ', 'һ', 'һ', 'ҽ',
    'ҽ', 'ҿ', 'ҿ', 'ӏ', 'ж', 'ж', 'ӄ', 'ӄ', 'ӆ', 'ӆ', 'ӈ', 'ӈ', 'ӊ', 'ӊ', 'ӌ', 'ӌ', 'ӎ', 'ӎ', 'ӏ',
    'а', 'а', 'а', 'а', 'ӕ', 'ӕ', 'е', 'е', 'ә', 'ә', 'ә', 'ә', 'ж', 'ж', 'з', 'з', 'ӡ', 'ӡ', 'и',
    'и', 'и', 'и', 'о', 'о', 'ө', 'ө', 'ө', 'ө', 'э', 'э', 'у', 'у', 'у', 'у', 'у', 'у', 'ч', 'ч',
    'ӷ', 'ӷ', 'ы', 'ы', 'ӻ', 'ӻ', 'ӽ', 'ӽ', 'ӿ', 'ӿ',
];
