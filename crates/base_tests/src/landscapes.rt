ghost use Rattle.std.specs.Prelude.{◌≤◌};

use enq_base::{Name, read_name};
use io_edge::{MemSource, Source};
use landscape::{LandFault, Landscape, read_landscape};
use lock_objects::{Field, KeyTable, LockObject};
use number_ranges::Interval;
use std::alloc::Global;
use std::test::*;

const WHOLE: &str = "max_locks = 1000\n\
[[object]]\n\
name = \"EZORDER\"\n\
fields = [{ name = \"MANDT\", width = 3 }, { name = \"ORDNR\", width = 10 }]\n\
[[object.table]]\n\
name = \"ZORDER\"\n\
keys = [\"MANDT\", \"ORDNR\"]\n\
[[range]]\n\
object = \"ZORDNR\"\n\
nr = \"01\"\n\
from = 1\n\
to = 9999999999\n\
buffer = 0\n\
percent = 10\n\
[[range]]\n\
object = \"ZSMALL\"\n\
nr = \"01\"\n\
from = 98\n\
to = 100\n\
buffer = 0\n\
percent = 40\n\
[[range]]\n\
object = \"ZBUF\"\n\
nr = \"01\"\n\
from = 1\n\
to = 1000\n\
buffer = 10\n\
percent = 0\n";

// A part of the landscape, what is put in its place, and the rule that is then broken, with its place.
const BROKEN: [(&str, &str, u8, u32); 50] = [
    ("max_locks = 1000", "max_locks = ", 2, 0),
    ("max_locks = 1000", "max_locks = 1\nmax_locks = 2", 2, 0),
    ("max_locks = 1000", "max_locks = 9223372036854775808", 2, 0),
    ("max_locks = 1000", "max_lock = 1000", 3, 0),
    ("max_locks = 1000", "max_locks = 0\nsessions = 1", 3, 0),
    ("max_locks = 1000", "max_locks = 0", 4, 0),
    ("max_locks = 1000", "max_locks = -1", 4, 0),
    ("max_locks = 1000", "max_locks = 100001", 4, 0),
    ("max_locks = 1000", "max_locks = 1000.0", 4, 0),
    ("max_locks = 1000", "max_locks = \"1000\"", 4, 0),
    ("max_locks = 1000", "max_locks = 0\nmax_marks = 0", 4, 0),
    ("max_locks = 1000", "max_marks = 0", 5, 0),
    ("max_locks = 1000", "max_marks = 1048577", 5, 0),
    ("max_locks = 1000", "max_marks = true", 5, 0),
    ("name = \"EZORDER\"\n", "", 6, 1),
    ("name = \"EZORDER\"", "name = 1", 6, 1),
    ("name = \"EZORDER\"", "name = \"EZORDER\"\nclient = 1", 6, 1),
    ("width = 3", "width = \"3\"", 6, 1),
    ("width = 3", "width = 3, kind = 1", 6, 1),
    ("keys = [\"MANDT\", \"ORDNR\"]\n", "", 6, 1),
    ("keys = [\"MANDT\", ", "keys = [1, ", 6, 1),
    ("[[object]]\n", "[[object]]\n[[object]]\n", 6, 1),
    ("[[range]]\n", "[[object]]\n[[range]]\n", 6, 2),
    ("name = \"EZORDER\"", "name = \"ezorder\"", 7, 1),
    ("name = \"MANDT\"", "name = \"\"", 7, 1),
    ("name = \"ZORDER\"", "name = \"9ORDER\"", 7, 1),
    ("keys = [\"MANDT\", ", "keys = [\"mandt\", ", 7, 1),
    ("width = 3", "width = 0", 7, 1),
    ("width = 3", "width = 151", 7, 1),
    ("width = 3", "width = 256", 7, 1),
    ("keys = [\"MANDT\", ", "keys = [\"BUKRS\", ", 8, 1),
    ("keys = [\"MANDT\", \"ORDNR\"]", "keys = []", 8, 1),
    (
        "width = 3 }, { name = \"ORDNR\", width = 10 }",
        "width = 150 }, { name = \"ORDNR\", width = 106 }",
        8,
        1,
    ),
    (
        "[[object.table]]",
        "[[object.table]]\nname = \"ZORDER\"\nkeys = [\"MANDT\"]\n[[object.table]]",
        8,
        1,
    ),
    ("percent = 10\n", "", 10, 1),
    ("percent = 10\n", "percent = 10\nlevel = 0\n", 10, 1),
    ("from = 98", "from = \"98\"", 10, 2),
    ("from = 98", "from = 98.0", 10, 2),
    ("object = \"ZSMALL\"", "object = \"zsmall\"", 11, 2),
    ("nr = \"01\"", "nr = \"1\"", 11, 1),
    ("nr = \"01\"", "nr = \"0A\"", 11, 1),
    ("nr = \"01\"", "nr = \"001\"", 11, 1),
    ("from = 98", "from = 0", 12, 2),
    ("from = 98", "from = 101", 12, 2),
    ("to = 9999999999", "to = 1000000000000000000", 12, 1),
    ("buffer = 10", "buffer = 1000001", 13, 3),
    ("buffer = 10", "buffer = -1", 13, 3),
    ("percent = 40", "percent = 100", 13, 2),
    ("percent = 40", "percent = -1", 13, 2),
    ("object = \"ZBUF\"", "object = \"ZORDNR\"", 14, 3),
];

// A part of the landscape, and what may stand in its place.
const RIGHT: [(&str, &str); 12] = [
    ("max_locks = 1000", "max_locks = 1\nmax_marks = 1"),
    (
        "max_locks = 1000",
        "max_marks = 1048576\nmax_locks = 100000",
    ),
    ("width = 3", "width = 140"),
    ("keys = [\"MANDT\", \"ORDNR\"]", "keys = [\"ORDNR\"]"),
    ("object = \"ZBUF\"", "object = \"EZORDER\""),
    (
        "object = \"ZBUF\"\nnr = \"01\"",
        "object = \"ZORDNR\"\nnr = \"02\"",
    ),
    ("from = 98", "from = 100"),
    ("to = 9999999999", "to = 999999999999999999"),
    ("buffer = 10", "buffer = 1000000"),
    ("percent = 40", "percent = 99"),
    ("from = 98\nto = 100", "to = 100\nfrom = 98"),
    ("from = 98", "from = 0x62"),
];

// Whole documents, and the rule that each breaks, with its place.
const DOCUMENTS: [(&[u8], u8, u32); 14] = [
    (b"max_locks = 1 # \xff", 2, 0),
    (b"max_locks", 2, 0),
    (b"object = 1", 3, 0),
    (b"object = [1]", 3, 0),
    (b"object = [[]]", 3, 0),
    (b"[object]\nname = \"E\"", 3, 0),
    (b"range = {}", 3, 0),
    (b"range = [{}, 1]", 3, 0),
    (b"[[object]]", 6, 1),
    (b"[[range]]", 10, 1),
    (b"[[range]]\n[[object]]", 6, 1),
    (
        b"object = [{ name = \"E\", fields = [], table = [] }]",
        8,
        1,
    ),
    (
        b"object = [{ name = \"e\", fields = [], table = [] }, {}]",
        7,
        1,
    ),
    (b"max_locks = 0\n[[object]]\n[[range]]", 4, 0),
];

fn name(text: &[u8]) -> Result<Name, Fail> {
    Ok(read_name(text).ok_or("a name")?)
}

fn source_of(alloc: Global, document: &[u8]) -> Result<MemSource, Fail> {
    Ok(MemSource::new(Vec::from_slice(alloc, document)?, Vec::new(alloc))?)
}

fn fault_in(alloc: Global, document: &[u8]) -> Result<Option<LandFault>, Fail> {
    let mut source = source_of(alloc, document)?;
    Ok(read_landscape(alloc, &mut source).err())
}

/// The landscape with something else in the place of a part.
fn changed(alloc: Global, old: &str, new: &str) -> Result<String, Fail> {
    let (head, tail) = WHOLE.split_once(old).ok_or("a part of the landscape")?;
    Ok(format!(in alloc; "{head}{new}{tail}")?)
}

fn fault_with(alloc: Global, old: &str, new: &str) -> Result<Option<LandFault>, Fail> {
    let document = changed(alloc, old, new)?;
    fault_in(alloc, document.as_bytes())
}

fn interval(object: &[u8], from: u64, to: u64, buffer: u32, percent: u8) -> Result<Interval, Fail>
    requires { 1 ≤ from }
{
    Ok(Interval {
        object: name(object)?,
        nr: *b"01",
        from,
        to,
        level: from - 1,
        buffer,
        percent,
    })
}

fn whole(alloc: Global) -> Result<Landscape, Fail> {
    let mut source = source_of(alloc, WHOLE.as_bytes())?;
    Ok(read_landscape(alloc, &mut source)?)
}

fn are_fields(fields: &[Field]) -> bool {
    match fields {
        [first, second] => {
            first.name.bytes() == b"MANDT".as_slice()
                && first.width == 3
                && second.name.bytes() == b"ORDNR".as_slice()
                && second.width == 10
        }
        _ => false,
    }
}

fn are_keys(keys: &[Name]) -> bool {
    match keys {
        [first, second] => {
            first.bytes() == b"MANDT".as_slice() && second.bytes() == b"ORDNR".as_slice()
        }
        _ => false,
    }
}

fn are_tables(tables: &[KeyTable]) -> bool {
    match tables {
        [table] => { table.name.bytes() == b"ZORDER".as_slice() && are_keys(table.keys.as_slice()) }
        _ => false,
    }
}

fn are_objects(objects: &[LockObject]) -> bool {
    match objects {
        [object] => {
            let name = object.name();
            name.bytes() == b"EZORDER".as_slice()
                && are_fields(object.fields())
                && are_tables(object.tables())
        }
        _ => false,
    }
}

fn has_objects(alloc: Global) -> Result<bool, Fail> {
    let landscape = whole(alloc)?;
    Ok(are_objects(landscape.objects.as_slice()))
}

#[test]
fn the_objects_are_read(rt: HostRuntime) -> Result<(), Fail> {
    assert!(rt; has_objects(rt.alloc())?);
    Ok(())
}

fn has_ranges(alloc: Global, ranges: &[Interval]) -> Result<bool, Fail> {
    let landscape = whole(alloc)?;
    Ok(landscape.ranges.as_slice() == ranges)
}

#[test]
fn the_ranges_are_read_in_their_order(rt: HostRuntime) -> Result<(), Fail> {
    let ranges = [
        interval(b"ZORDNR", 1, 9999999999, 0, 10)?,
        interval(b"ZSMALL", 98, 100, 0, 40)?,
        interval(b"ZBUF", 1, 1000, 10, 0)?,
    ];
    assert!(rt; has_ranges(rt.alloc(), &ranges)?);
    Ok(())
}

/// What first stands in place of a part without breaking the rule beside it.
fn not_broken(
    alloc: Global,
    rows: &[(&'static str, &'static str, u8, u32)],
) -> Result<Option<&'static str>, Fail> {
    for (old, new, rule, place) in rows {
        let (rule, place) = (*rule, *place);
        if fault_with(alloc, *old, *new)? != Some(LandFault::Bad { rule, place }) {
            return Ok(Some(*new));
        }
    }
    Ok(None)
}

#[test]
fn the_first_broken_rule_is_named(rt: HostRuntime) -> Result<(), Fail> {
    assert_eq!(rt; not_broken(rt.alloc(), &BROKEN)?, None);
    Ok(())
}

/// What first stands in place of a part and breaks a rule.
fn not_right(
    alloc: Global,
    rows: &[(&'static str, &'static str)],
) -> Result<Option<&'static str>, Fail> {
    for (old, new) in rows {
        if fault_with(alloc, *old, *new)?.is_some() {
            return Ok(Some(*new));
        }
    }
    Ok(None)
}

#[test]
fn what_keeps_the_rules_is_read(rt: HostRuntime) -> Result<(), Fail> {
    assert_eq!(rt; not_right(rt.alloc(), &RIGHT)?, None);
    Ok(())
}

/// The first of these documents that doesn't break the rule beside it.
fn not_refused(
    alloc: Global,
    rows: &[(&'static [u8], u8, u32)],
) -> Result<Option<&'static [u8]>, Fail> {
    for (document, rule, place) in rows {
        let (rule, place) = (*rule, *place);
        if fault_in(alloc, *document)? != Some(LandFault::Bad { rule, place }) {
            return Ok(Some(*document));
        }
    }
    Ok(None)
}

#[test]
fn other_documents_are_refused(rt: HostRuntime) -> Result<(), Fail> {
    assert_eq!(rt; not_refused(rt.alloc(), &DOCUMENTS)?, None);
    Ok(())
}

/// Whether a document is too long, and so many of its bytes are left then.
fn is_too_long(alloc: Global, source: &mut MemSource, left: usize) -> bool {
    let fault = read_landscape(alloc, source).err();
    let mut rest = [0; 8];
    fault == Some(LandFault::Bad { rule: 1, place: 0 }) && source.read(&mut rest) == Ok(left)
}

fn comment_of(alloc: Global, length: usize) -> Result<MemSource, Fail> {
    Ok(MemSource::new(vec![in alloc; b'#'; length]?, Vec::new(alloc))?)
}

fn is_longest_read(alloc: Global) -> Result<bool, Fail> {
    let mut source = comment_of(alloc, 1_048_576)?;
    Ok(read_landscape(alloc, &mut source).is_ok())
}

fn is_longer_refused(alloc: Global) -> Result<bool, Fail> {
    let mut source = comment_of(alloc, 1_048_580)?;
    Ok(is_too_long(alloc, &mut source, 3))
}

#[test]
fn a_document_has_at_most_1_048_576_bytes(rt: HostRuntime) -> Result<(), Fail> {
    assert!(rt; is_longest_read(rt.alloc())?);
    assert!(rt; is_longer_refused(rt.alloc())?);
    Ok(())
}
