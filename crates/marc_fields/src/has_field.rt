//! Fields in a list, and borrows of fields in one.
ghost use Rattle.std.specs.Prelude.{◌≡◌};
ghost use Rattle.union_base.specs.declared.field.Field.{Field as FieldValue};

use union_base::field::Field;

/// A field, or a borrow of one.
pub(crate) trait HasField {
    ghost field: { Self → FieldValue };

    /// The field. Takes no memory.
    fn field(&self) -> &Field
        ensures { result.now ≡ field self.now };
}

impl HasField for Field {
    ghost field = { λ f. f };

    fn field(&self) -> &Field {
        self
    }
}

impl HasField for &Field {
    ghost field = { λ f. f.now };

    fn field(&self) -> &Field {
        self
    }
}
