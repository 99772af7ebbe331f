//! Values that features have, as bytes.
ghost use Rattle.std.specs.Prelude.{◌≡◌};

use union_base::bytes::Bytes;
use union_base::sorted_list::Element;

/// A value that is spelled in bytes.
pub trait Spelled: Element {
    ghost use Rattle.std.specs.Prelude.{List, ℕ};

    /// The bytes.
    ghost spelled: { Self → List ℕ };

    /// The bytes. Takes no memory.
    fn spelling(&self) -> &[u8]
        ensures { result.now ≡ spelled self.now };
}

impl Spelled for Bytes {
    ghost spelled = { λ text. text };

    fn spelling(&self) -> &[u8] {
        self.bytes()
    }
}

impl<const N: usize> Spelled for [u8; N] {
    ghost spelled = { λ text. text };

    fn spelling(&self) -> &[u8] {
        self.as_slice()
    }
}
