//! What holds of the records of which editions are made, and of work keys. Each function here does nothing when it runs: its
//! contract is the law.
ghost use Rattle.std.specs.Prelude.{◌≡◌, false, IsTrue};
ghost use Rattle.std.specs.List.{list_all};
ghost use Rattle.marc_fields.specs.Spelling.{is_short};
ghost use Rattle.marc_parts.specs.declared.marc_record.Record.{Record};
ghost use Rattle.marc_parts.specs.Loads.{is_deleted, is_loadable};
ghost use Rattle.marc_rules.specs.Accepted.{IsAccepted};
ghost use Rattle.record_editions.specs.EditionKeys.{IsKeyWithoutNames};

/// An accepted record that is no withdrawal is one that `records::edition_of` makes an edition of.
pub fn accepted_can_be_loaded()
    ensures loadable { (r : Record) → IsAccepted r → is_deleted r.leader.status ≡ false
        → IsTrue (is_loadable r) }
    ensures short { (r : Record) → IsAccepted r → IsTrue (list_all is_short r.fields) }
{}

/// Where no names are given, the work key is that of the fields alone.
pub fn key_without_names()
    ensures { IsKeyWithoutNames }
{}
