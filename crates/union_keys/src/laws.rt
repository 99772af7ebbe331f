//! What holds of where frames are. Each function here does nothing when it runs: its contract is the law.
ghost use Rattle.std.specs.Prelude.{◌≡◌, ℕ, List, map, length, IsTrue};
ghost use Rattle.iso2709_frame.specs.Frames.{frames};
ghost use Rattle.match_features.specs.declared.keys.FeatureKey.{FeatureKey};
ghost use Rattle.union_base.specs.LibraryCodes.{is_library_code};
ghost use Rattle.union_keys.specs.Placed.{cut_at, placed};
ghost use Rattle.union_keys.specs.Tables.{key_number, key_row, record_row};
ghost use Rattle.union_keys.specs.declared.standing.Standing.{Standing};

/// The frames whose places are told are the frames of the file, in their order, and no others: those that every command of the
/// program cuts.
pub fn placed_are_the_frames()
    ensures { (text : List ℕ) → map cut_at (placed text) ≡ frames text }
{}

/// Rows have a fixed width: that of a record 56 bytes, whatever its library's code, and that of a key 24.
pub fn rows_have_their_widths()
    ensures of_record { (s : Standing) → IsTrue (is_library_code s.id.library)
        → length (record_row s) ≡ 56 }
    ensures of_key { (number mark : ℕ) (key : FeatureKey) → length (key_row number mark key) ≡ 24 }
{}

/// Equal keys have equal numbers, on any machine: the number is made of the key alone.
pub fn equal_keys_have_equal_numbers()
    ensures { (a b : FeatureKey) → a ≡ b → key_number a ≡ key_number b }
{}
