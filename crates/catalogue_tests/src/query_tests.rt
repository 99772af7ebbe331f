//! Lines whose readings another program made.
use catalogue_query::query::{Query, QueryRefusal};
use std::alloc::Global;
use std::test::Fail;

/// Lines, and what they ask: the word and its one or two texts, or the refusal.
const READINGS: [(&[u8], &[u8]); 74] = [
    // a record by its library and its control number
    (b"id LIBA a1", b"id;LIBA;a1"),
    (b"id LIBA  c 1 ", b"id;LIBA;c 1"),
    (b"id LIBA a1 x", b"id;LIBA;a1 x"),
    (b"id LIBA   x  ", b"id;LIBA;x"),
    (b"holdings LIBA 75425165", b"holdings;LIBA;75425165"),
    // ISBNs by their keys
    (b"isbn 0306406152", b"isbn;9780306406157;"),
    (b"isbn 978-0-306-40615-7 (pbk.)", b"isbn;9780306406157;"),
    (b"isbn   0-306-40615-2:x", b"isbn;9780306406157;"),
    (b"isbn 316148410x", b"isbn;9783161484100;"),
    (b"isbn 9783161484100", b"isbn;9783161484100;"),
    // ISSNs by their keys
    (b"issn 0378-5955", b"issn;03785955;"),
    (b"issn  0378-5955", b"issn;03785955;"),
    (b"issn 2434-561x", b"issn;2434561X;"),
    // control numbers by their keys
    (b"control (OCoLC)12345", b"control;OCoLC;12345"),
    (b"control (OCoLC)ocm00012345", b"control;OCoLC;12345"),
    (b"control  (OCoLC)on012345 ", b"control;OCoLC;12345"),
    (b"control (DLC)85000002", b"control;DLC;85000002"),
    (b"control (DLC)85-2", b"control;DLC;85-2"),
    (b"control (X)x y", b"control;X;x y"),
    (b"control ( X ) x y ", b"control;X;x y"),
    // titles by their forms
    (b"title RED SHIPS!", b"title;red ships;"),
    (b"title blue, ships", b"title;blue ships;"),
    (b"title The red ships", b"title;the red ships;"),
    (b"title \xC4\x8Cern\xC3\xA1 lo\xC4\x8F", b"title;cerna lod;"),
    (b"title cerna lod", b"title;cerna lod;"),
    (b"title a\x01b\x7Fc", b"title;a b c;"),
    // work keys as they are
    (b"work hill, ann/red ships", b"work;hill, ann/red ships;"),
    (b"work  cat///LIBA.id", b"work; cat///LIBA.id;"),
    (b"work hill, ann/red ships ", b"work;hill, ann/red ships ;"),
    (b"work \xFF\xFE", b"work;\xFF\xFE;"),
    // the count, with nothing after it but the one blank
    (b"count", b"count;;"),
    (b"count ", b"count;;"),
    (b"count  ", b"refused word"),
    (b"count 1", b"refused word"),
    // a first word of the eight, and a rest that it cannot have
    (b"isbn 123", b"refused word"),
    (b"isbn", b"refused word"),
    (b"isbn ", b"refused word"),
    (b"isbn 9780306406158", b"refused word"),
    (b"issn 0378-5954", b"refused word"),
    (b"issn 0378 5955", b"refused word"),
    (b"issn", b"refused word"),
    (b"id LIBA", b"refused word"),
    (b"id LIBA ", b"refused word"),
    (b"id liba x", b"refused word"),
    (b"id  LIBA x", b"refused word"),
    (b"id", b"refused word"),
    (
        b"id LIBA xxxxxxxxxxxxxxxxxxxxxxxxxxxxxxxxxxxxxxxxxxxxxxxxxxxxxxxxxxxxxxxxx",
        b"refused word",
    ),
    (b"id LIBA a\tb", b"refused word"),
    (b"id LIBA \xC3\xA9", b"refused word"),
    (b"title ...", b"refused word"),
    (b"title", b"refused word"),
    (b"title ", b"refused word"),
    (b"title \xFF", b"refused word"),
    (b"work", b"refused word"),
    (b"work ", b"refused word"),
    (b"holdings", b"refused word"),
    (b"holdings LIBA", b"refused word"),
    (b"control", b"refused word"),
    (b"control OCLC 1", b"refused word"),
    (b"control (OCoLC)", b"refused word"),
    (b"control (OCoLC)ocm", b"refused word"),
    (b"control (=LIBA)1", b"refused word"),
    // another first word
    (b" control (OCoLC)12345", b"refused unknown"),
    (b" count", b"refused unknown"),
    (b"COUNT", b"refused unknown"),
    (b"count\tx", b"refused unknown"),
    (b"id\tLIBA x", b"refused unknown"),
    (b"ids LIBA x", b"refused unknown"),
    (b"ISSN 0378-5955", b"refused unknown"),
    (b"issnx 0378-5955", b"refused unknown"),
    (b"find x", b"refused unknown"),
    (b"watch", b"refused unknown"),
    (b"turn 000001 LIBA 1", b"refused unknown"),
    (b"", b"refused unknown"),
];

#[test]
fn lines_are_read_or_refused(rt: HostRuntime) -> Result<(), Fail> {
    for (line, reading) in READINGS {
        assert_eq!(rt; reading_of(rt.alloc(), line)?.as_slice(), reading);
    }
    Ok(())
}

/// What the line asks, as the table tells it.
fn reading_of(alloc: Global, line: &[u8]) -> Result<Vec<u8>, Fail> {
    match Query::read(alloc, line) {
        Ok(query) => told(alloc, &query),
        Err(QueryRefusal::Unknown) => Ok(Vec::from_slice(alloc, b"refused unknown")?),
        Err(QueryRefusal::Word) => Ok(Vec::from_slice(alloc, b"refused word")?),
        Err(QueryRefusal::Memory) => Err("memory")?,
    }
}

fn told(alloc: Global, query: &Query) -> Result<Vec<u8>, Fail> {
    let (word, first, second): (&[u8], &[u8], &[u8]) = match query {
        Query::Id(id) => (b"id;", id.library.bytes(), id.control.bytes()),
        Query::Isbn(digits) => (b"isbn;", digits, &[]),
        Query::Issn(number) => (b"issn;", number, &[]),
        Query::Control(source, number) => (b"control;", source.bytes(), number.bytes()),
        Query::Title(form) => (b"title;", form.bytes(), &[]),
        Query::Work(key) => (b"work;", key.bytes(), &[]),
        Query::Holdings(id) => (b"holdings;", id.library.bytes(), id.control.bytes()),
        Query::Count => (b"count;", &[], &[]),
    };
    let mut text = Vec::new(alloc);
    text.extend_from_slice(word)?;
    text.extend_from_slice(first)?;
    text.push(b';')?;
    text.extend_from_slice(second)?;
    Ok(text)
}
