//! Works after loads and withdrawals. A change is written as pairs `KEY=LIBRARY.CONTROL` with semicolons between.
use std::alloc::Global;
use std::test::Fail;
use union_base::bytes::Bytes;
use union_base::library_code::LibraryCode;
use union_base::record_id::RecordId;
use work_clusters::works::Works;

/// The pairs of a text, none for the empty text.
fn pairs(alloc: Global, text: &str) -> Result<Vec<(Bytes, RecordId)>, Fail> {
    let mut all = Vec::new(alloc);
    for pair in text.split(';') {
        if let Some((key, id)) = pair.split_once('=') {
            let (library, control) = id.split_once('.').ok_or("an id")?;
            let id = RecordId {
                library: LibraryCode::read(library.as_bytes()).ok_or("a code")?,
                control: Bytes::of(alloc, control.as_bytes())?,
            };
            all.push((Bytes::of(alloc, key.as_bytes())?, id))?;
        }
    }
    Ok(all)
}

/// One change: the gone pairs leave, then the come pairs enter.
fn turn(alloc: Global, works: &mut Works, gone: &str, come: &str) -> Result<(), Fail> {
    let change = works.plan(pairs(alloc, gone)?, pairs(alloc, come)?);
    works.make_room(alloc, &change)?;
    works.install(change);
    Ok(())
}

/// The works in a walk from key to key, in the writing of a change.
fn shown(alloc: Global, works: &Works) -> Result<Vec<u8>, Fail> {
    let mut text = Vec::new(alloc);
    let mut key = None;
    for _ in 0..works.count() {
        key = works.after(key);
        if let Some(key) = key {
            for id in works.editions_of(key) {
                text.extend_from_slice(key.bytes())?;
                text.push(b'=')?;
                text.extend_from_slice(id.library.bytes())?;
                text.push(b'.')?;
                text.extend_from_slice(id.control.bytes())?;
                text.push(b';')?;
            }
        }
    }
    Ok(text)
}

#[test]
fn works_after_each_turn(rt: HostRuntime) -> Result<(), Fail> {
    let alloc = rt.alloc();
    let mut works = Works::empty(alloc);
    for (gone, come, after) in [
        // Three records of one edition, and then the one that joined them goes.
        (
            "",
            "hill, ann/red ships=LIBA.a1",
            "hill, ann/red ships=LIBA.a1;",
        ),
        (
            "hill, ann/red ships=LIBA.a1",
            "hill, ann/red ships=LIBA.c1;hill, ann/red ships=LIBA.a1",
            "hill, ann/red ships=LIBA.a1;hill, ann/red ships=LIBA.c1;",
        ),
        // Works in the order of their keys, each with its ids in order of library and control number.
        (
            "",
            "hill, ann/red ships=LIBB.a1;cat///LIBA.id=LIBA.id;hill, ann/red=LIBA.z;hill, ann/red ships=LIBA.b1",
            "cat///LIBA.id=LIBA.id;hill, ann/red=LIBA.z;hill, ann/red ships=LIBA.a1;hill, ann/red ships=LIBA.b1;hill, ann/red ships=LIBA.c1;hill, ann/red ships=LIBB.a1;",
        ),
        // A work goes with its last edition; an edition moves from one work to another.
        (
            "cat///LIBA.id=LIBA.id;hill, ann/red ships=LIBA.b1",
            "hill, ann/red=LIBA.b1",
            "hill, ann/red=LIBA.b1;hill, ann/red=LIBA.z;hill, ann/red ships=LIBA.a1;hill, ann/red ships=LIBA.c1;hill, ann/red ships=LIBB.a1;",
        ),
    ] {
        turn(alloc, &mut works, gone, come)?;
        assert_eq!(rt; shown(alloc, &works)?.as_slice(), after.as_bytes());
    }
    assert_eq!(rt; works.count(), 2);
    let absent = Bytes::of(alloc, b"hill, ann/red ship")?;
    assert!(rt; works.editions_of(&absent).is_empty());
    Ok(())
}

#[test]
fn no_works(rt: HostRuntime) -> Result<(), Fail> {
    let works = Works::empty(rt.alloc());
    let key = Bytes::of(rt.alloc(), b"")?;
    assert_eq!(rt; works.count(), 0);
    assert!(rt; works.after(None).is_none());
    assert!(rt; works.after(Some(&key)).is_none());
    assert!(rt; works.editions_of(&key).is_empty());
    Ok(())
}
