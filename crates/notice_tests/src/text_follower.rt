//! A follower that reads the text of notices and nothing else.
use catalogue_core::edition::Edition;
use std::alloc::Global;
use std::collections::BTreeMap;
use std::test::Fail;
use union_base::bytes::Bytes;

/// Adds `LIB.CTL` of the record and a blank.
fn add_record(text: &mut Vec<u8>, library: &[u8], control: &[u8]) -> Result<(), Fail> {
    text.extend_from_slice(library)?;
    text.push(b'.')?;
    text.extend_from_slice(control)?;
    text.push(b' ')?;
    Ok(())
}

/// The records of the edition, each with a blank after it. The first of them names it.
pub fn records_of(alloc: Global, edition: &Edition) -> Result<Vec<u8>, Fail> {
    let mut text = Vec::new(alloc);
    let ids = edition.contributors().as_slice();
    for id in ids {
        add_record(&mut text, id.library.bytes(), id.control.bytes())?;
    }
    Ok(text)
}

/// The editions as the notices tell them: under the name of each its records, each with a blank after it.
#[derive(Drop)]
pub struct TextFollower {
    editions: BTreeMap<Bytes, Vec<u8>>,
    /// The name of the edition whose lines are read; none while it is a closed one's.
    opened: Option<Bytes>,
}

impl TextFollower {
    /// A follower that read nothing.
    pub fn empty(alloc: Global) -> TextFollower {
        TextFollower {
            editions: BTreeMap::new(alloc),
            opened: None,
        }
    }

    /// How many editions it holds.
    pub fn count(&self) -> usize {
        self.editions.len()
    }

    /// Whether it holds an edition of that name with these records.
    pub fn has(&self, name: &Bytes, records: &[u8]) -> bool {
        match self.editions.get(name) {
            Some(held) => held.as_slice() == records,
            None => false,
        }
    }

    /// Reads a line of a notice.
    pub fn read(&mut self, alloc: Global, line: &[u8]) -> Result<(), Fail> {
        if let Some(name) = line.strip_prefix(b"closed ") {
            self.editions.remove(&Bytes::of(alloc, name)?);
            self.opened = None;
        } else if let Some(name) = line.strip_prefix(b"opened ") {
            self.editions
                .insert(Bytes::of(alloc, name)?, Vec::new(alloc))?;
            self.opened = Some(Bytes::of(alloc, name)?);
        } else if let Some(rest) = line.strip_prefix(b" ") {
            self.add(rest)?;
        }
        Ok(())
    }

    /// Adds the record that the line names, where an opened edition's lines are read.
    fn add(&mut self, rest: &[u8]) -> Result<(), Fail> {
        if let Some(name) = &self.opened {
            if let Some(records) = self.editions.get_mut(name) {
                for byte in rest {
                    records.push(*byte)?;
                    if *byte == b' ' {
                        break;
                    }
                }
            }
        }
        Ok(())
    }
}
