use script_lang::{RawValue, ReadFault, ScriptLine, read_line};
use std::alloc::Global;
use std::test::*;

const LONGEST_NAME: &[u8] = b"A23456789012345678901234567890 LOGOFF";

const LONGER_NAME: &[u8] = b"A234567890123456789012345678901 LOGOFF";

// Lines that are read, and the form of each.
const LINES: [(&[u8], &str); 54] = [
    (b"", "blank"),
    (b"#", "blank"),
    (b"# a comment", "blank"),
    (b"#A ENQ EZORDER E 1", "blank"),
    (b"A LOGON MILLER", "logon"),
    (b"A LOGOFF", "logoff"),
    (LONGEST_NAME, "logoff"),
    (b"A DEQ_ALL", "deq_all"),
    (b"A FLUSH", "flush"),
    (b"A RESET", "reset"),
    (b"A COMMIT", "commit"),
    (b"A ROLLBACK", "rollback"),
    (b"A ENQ EZORDER E 1", "enq"),
    (b"A ENQ EZORDER S 1 MANDT=100", "enq"),
    (b"A ENQ EZORDER X 2 MANDT=100 ORDNR=0000000001", "enq"),
    (b"A ENQ EZORDER O 3 MANDT=100 ORDNR=", "enq"),
    (b"A ENQ EZORDER E 1 MANDT== ORDNR=$N", "enq"),
    (b"A DEQ EZORDER E 1 MANDT=100", "deq"),
    (b"A DEQ EZORDER O 2", "deq"),
    (b"A COLLECT EZORDER E 1 MANDT=100", "collect"),
    (b"A COLLECT EZORDER X 3 MANDT=", "collect"),
    (b"A CONVERT EZORDER", "convert"),
    (b"A CONVERT EZORDER MANDT=100 ORDNR=0000000001", "convert"),
    (b"A NUM ZORDNR 01 N", "num"),
    (b"A READ VBAP $N-10 V", "read"),
    (b"A V1 PUT ZORDER 1 NEW", "put"),
    (b"A V1 PUT ZORDER 1  NEW ", "put"),
    (b"A V1 INS VBAK $N MILLER 2026-07-01", "ins"),
    (b"A V1 DEL ZORDER 9", "del"),
    (b"A V1 ADD STAT ORDERS 1", "add"),
    (b"A V1 ADD STAT ORDERS 1X", "add"),
    (b"A V2 PUT ZORDER 1 NEW", "put"),
    (b"A V2 INS ZORDER 1 NEW", "ins"),
    (b"A V2 DEL ZORDER 9", "del"),
    (b"A V2 ADD STAT ORDERS -1", "add"),
    (b"@1 TAKE1", "take1"),
    (b"@1 DO1", "do1"),
    (b"@1 TAKE2", "take2"),
    (b"@1 DO2", "do2"),
    (b"@10 DO2", "do2"),
    (b"@64 DROP", "drop"),
    (b"! KILL", "kill"),
    (b"! FAILOVER", "failover"),
    (b"! RESTART", "restart"),
    (b"! ATTACH", "attach"),
    (b"! CANCEL 1.2.3", "cancel"),
    (b"! CANCEL 4294967295.1.1", "cancel"),
    (b"! RESUBMIT 1.2.3", "resubmit"),
    (b"! RESUBMIT 4294967295.4294967295.4294967295", "resubmit"),
    (b"? SM12", "sm12"),
    (b"? SM13", "sm13"),
    (b"? SNRO", "snro"),
    (b"? AUDIT", "audit"),
    (b"ENQ LOGOFF", "logoff"),
];

// Lines outside the grammar.
const BAD_LINES: [&[u8]; 70] = [
    b" ",
    b"   ",
    b"\r",
    b"A LOGOFF\r",
    b"#\x09tab",
    b"# \x7f",
    b" # comment",
    b"A",
    b"A ",
    b"A FOO",
    b"a LOGOFF",
    b"9 LOGOFF",
    LONGER_NAME,
    b" A LOGOFF",
    b"A  LOGOFF",
    b"A LOGOFF ",
    b"A LOGOFF NOW",
    b"A logoff",
    b"A LOGON",
    b"A LOGON ",
    b"A LOGON miller",
    b"A LOGON MILLER ",
    b"A LOGON MILLER SMITH",
    b"A ENQ EZORDER",
    b"A ENQ EZORDER E",
    b"A ENQ EZORDER E 0",
    b"A ENQ EZORDER E 4",
    b"A ENQ EZORDER U 1",
    b"A ENQ EZORDER E 1 ",
    b"A ENQ EZORDER E 1 MANDT",
    b"A ENQ EZORDER E 1 =100",
    b"A ENQ EZORDER E 1  MANDT=100",
    b"A ENQ EZORDER E 1 MANDT=100  ORDNR=1",
    b"A ENQ EZORDER E 1 MANDT=100 ",
    b"A ENQ EZORDER E 1 MANDT=\x09",
    b"A CONVERT EZORDER ",
    b"A CONVERT EZORDER E",
    b"A NUM ZORDNR 1 N",
    b"A NUM ZORDNR 001 N",
    b"A NUM ZORDNR 0A N",
    b"A NUM ZORDNR 01",
    b"A READ ZORDER 6",
    b"A READ ZORDER  V",
    b"A V1 PUT ZORDER 1",
    b"A V1 PUT ZORDER 1 ",
    b"A V1 PUT ZORDER  NEW",
    b"A V1 PUT ZORDER 1 \xc3\xa4",
    b"A V1 DEL ZORDER ",
    b"A V1 DEL ZORDER 9 9",
    b"A V1 ADD STAT ORDERS ",
    b"A V1 ADD STAT ORDERS 1 ",
    b"A V3 PUT ZORDER 1 NEW",
    b"@0 TAKE1",
    b"@65 TAKE1",
    b"@01 TAKE1",
    b"@ TAKE1",
    b"@100 TAKE1",
    b"@1 KILL",
    b"! KILL ",
    b"! CANCEL",
    b"! CANCEL 1.2",
    b"! CANCEL 1..3",
    b"! CANCEL 1.2.",
    b"! CANCEL 1.2.3.4",
    b"! CANCEL 1.2.3 ",
    b"! CANCEL 1.02.3",
    b"! RESUBMIT 01.2.3",
    b"! CANCEL 1.0.3",
    b"! CANCEL 4294967296.1.1",
    b"? SM14",
];

fn is_read_as(alloc: Global, bytes: &[u8], form: &str) -> bool {
    match read_line(alloc, bytes) {
        Ok(line) => form_of(&line) == form,
        Err(_) => false,
    }
}

// The first of these lines that isn't read, or in another form.
fn misread(alloc: Global, lines: &[(&'static [u8], &'static str)]) -> Option<&'static [u8]> {
    for (bytes, form) in lines {
        if !is_read_as(alloc, *bytes, *form) {
            return Some(*bytes);
        }
    }
    None
}

fn is_bad(alloc: Global, bytes: &[u8]) -> bool {
    match read_line(alloc, bytes) {
        Ok(_) => false,
        Err(fault) => fault == ReadFault::BadLine,
    }
}

// The first of these lines that isn't refused.
fn not_bad(alloc: Global, lines: &[&'static [u8]]) -> Option<&'static [u8]> {
    for bytes in lines {
        if !is_bad(alloc, *bytes) {
            return Some(*bytes);
        }
    }
    None
}

#[test]
fn every_form_of_line_is_read(rt: HostRuntime) {
    assert_eq!(rt; misread(rt.alloc(), &LINES), None);
}

#[test]
fn bytes_outside_the_forms_are_bad_lines(rt: HostRuntime) {
    assert_eq!(rt; not_bad(rt.alloc(), &BAD_LINES), None);
}

fn are_values(values: &[RawValue], wanted: &[(&[u8], &[u8])]) -> bool {
    for (value, (field, raw)) in values.iter().zip(wanted) {
        if value.field.bytes() != *field || value.raw.as_slice() != *raw {
            return false;
        }
    }
    values.len() == wanted.len()
}

fn has_values(alloc: Global, bytes: &[u8], wanted: &[(&[u8], &[u8])]) -> bool {
    match read_line(alloc, bytes) {
        Ok(ScriptLine::Enq { values, .. }) => are_values(values.as_slice(), wanted),
        _ => false,
    }
}

const VALUES: [(&[u8], &[u8]); 2] = [(b"MANDT", b"$N=1"), (b"ORDNR", b"")];

#[test]
fn values_keep_their_order_and_their_bytes(rt: HostRuntime) {
    let line = b"A ENQ EZORDER E 3 MANDT=$N=1 ORDNR=";
    assert!(rt; has_values(rt.alloc(), line, &VALUES));
}

// Whether the line puts this text at this key, in the V2 part.
fn puts(alloc: Global, bytes: &[u8], wanted_key: &[u8], wanted_text: &[u8]) -> bool {
    match read_line(alloc, bytes) {
        Ok(
            ScriptLine::Put {
                part,
                key,
                text,
                ..
            },
        ) => part == 2 && key.as_slice() == wanted_key && text.as_slice() == wanted_text,
        _ => false,
    }
}

#[test]
fn a_text_keeps_its_spaces(rt: HostRuntime) {
    let line = b"A V2 PUT ZORDER 1-20  NEW  ORDER ";
    assert!(rt; puts(rt.alloc(), line, b"1-20", b" NEW  ORDER "));
}

fn form_of(line: &ScriptLine) -> &'static str {
    match line {
        ScriptLine::Blank => "blank",
        ScriptLine::Logon { .. } => "logon",
        ScriptLine::Logoff { .. } => "logoff",
        ScriptLine::DeqAll { .. } => "deq_all",
        ScriptLine::Flush { .. } => "flush",
        ScriptLine::Reset { .. } => "reset",
        ScriptLine::Commit { .. } => "commit",
        ScriptLine::Rollback { .. } => "rollback",
        ScriptLine::Enq { .. } => "enq",
        ScriptLine::Deq { .. } => "deq",
        ScriptLine::Collect { .. } => "collect",
        ScriptLine::Convert { .. } => "convert",
        ScriptLine::Num { .. } => "num",
        ScriptLine::Read { .. } => "read",
        ScriptLine::Put { .. } => "put",
        ScriptLine::Ins { .. } => "ins",
        ScriptLine::Del { .. } => "del",
        ScriptLine::Add { .. } => "add",
        ScriptLine::Take1 { .. } => "take1",
        ScriptLine::Do1 { .. } => "do1",
        ScriptLine::Take2 { .. } => "take2",
        ScriptLine::Do2 { .. } => "do2",
        ScriptLine::DropOrder { .. } => "drop",
        ScriptLine::Kill => "kill",
        ScriptLine::FailOver => "failover",
        ScriptLine::Restart => "restart",
        ScriptLine::Attach => "attach",
        ScriptLine::Cancel { .. } => "cancel",
        ScriptLine::Resubmit { .. } => "resubmit",
        ScriptLine::Sm12 => "sm12",
        ScriptLine::Sm13 => "sm13",
        ScriptLine::Snro => "snro",
        ScriptLine::Audit => "audit",
    }
}
