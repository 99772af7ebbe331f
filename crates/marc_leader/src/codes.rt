//! The nine codes of a leader, which contracts see as the plain record `Codes`.
ghost use Rattle.std.specs.Prelude.{IsTrue};
ghost use Rattle.marc_leader.specs.Codes.{are_printable};

use std::marker::Model;

/// The bytes of a leader that a record chooses itself (MARC 21, 'Leader'), named with their places. Each is an ASCII
/// graphic or a blank, 0x20 to 0x7E: whoever builds a value shows it, and whoever has one knows it. Codes are
/// compared in the order of their places.
#[derive(Clone, Copy, Debug, PartialEq, Eq, PartialOrd, Ord)]
pub struct LeaderCodes {
    /// 05, the record's status.
    pub status: u8,
    /// 06, the type of record.
    pub kind: u8,
    /// 07, the bibliographic level.
    pub level: u8,
    /// 08, the type of control.
    pub control: u8,
    /// 09, the character coding scheme.
    pub coding: u8,
    /// 17, the encoding level.
    pub encoding: u8,
    /// 18, the descriptive cataloguing form.
    pub form: u8,
    /// 19, the multipart resource record level.
    pub part: u8,
    /// 23, the last byte of the entry map, `0` in common use.
    pub last: u8,
}

impl Model for LeaderCodes {
    ghost use Rattle.std.specs.Prelude.{IsTrue};
    ghost use Rattle.marc_leader.specs.Codes.{Codes, are_printable};

    ghost Value = { Codes };

    ghost view = { λ c. record {
      status = c.status;
      kind = c.kind;
      level = c.level;
      control = c.control;
      coding = c.coding;
      encoding = c.encoding;
      form = c.form;
      part = c.part;
      last = c.last;
    } };

    ghost invariant = { λ c. IsTrue (are_printable (record {
      status = c.status;
      kind = c.kind;
      level = c.level;
      control = c.control;
      coding = c.coding;
      encoding = c.encoding;
      form = c.form;
      part = c.part;
      last = c.last;
    })) };

    ghost inverse = { λ c. record {
      status = c.status;
      kind = c.kind;
      level = c.level;
      control = c.control;
      coding = c.coding;
      encoding = c.encoding;
      form = c.form;
      part = c.part;
      last = c.last;
    } };
}

impl LeaderCodes {
    /// Shows that each code is an ASCII graphic or a blank, as the type keeps.
    pub fn prints(&self)
        ensures { IsTrue (are_printable self.now) }
    {
        let _ = &self.status;
    }
}
