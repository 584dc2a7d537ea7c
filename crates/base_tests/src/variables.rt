use dialogue_session::Dialogue;
use enq_base::{Name, Refusal, read_name};
use std::alloc::Global;
use std::test::*;

// Parts of lines, and the bytes that they stand for where N is 42, N1 is 7, D is `$N` and the longest name is L.
const FILLED: [(&[u8], &[u8]); 21] = [
    (b"", b""),
    (b"PLAIN", b"PLAIN"),
    (b"$N", b"42"),
    (b"$N-10", b"42-10"),
    (b"0$N", b"042"),
    (b"$N1", b"7"),
    (b"$N$N1$N", b"42742"),
    (b"$N.1", b"42.1"),
    (b"$N x", b"42 x"),
    (b"$Nx", b"42x"),
    (b"$", b"$"),
    (b"A$", b"A$"),
    (b"$$", b"$$"),
    (b"$$N", b"$42"),
    (b"$ N", b"$ N"),
    (b"$1N", b"$1N"),
    (b"$_N", b"$_N"),
    (b"$n", b"$n"),
    (b"$D", b"$N"),
    (b"$A23456789012345678901234567890", b"L"),
    (b"$A234567890123456789012345678901", b"L1"),
];

// Parts of lines, and the first name in them that isn't known.
const UNKNOWN: [(&[u8], &[u8]); 8] = [
    (b"$M", b"M"),
    (b"$N2", b"N2"),
    (b"$N_", b"N_"),
    (b"$D1", b"D1"),
    (b"$N$M", b"M"),
    (b"$M$L", b"M"),
    (b"$$M-1", b"M"),
    (
        b"$A2345678901234567890123456789",
        b"A2345678901234567890123456789",
    ),
];

// Variables in the order in which they are set: N twice.
const VARIABLES: [(&[u8], &[u8]); 5] = [
    (b"N", b"41"),
    (b"D", b"$N"),
    (b"N1", b"7"),
    (b"A23456789012345678901234567890", b"L"),
    (b"N", b"42"),
];

fn set(side: &mut Dialogue, variable: &[u8], text: &[u8]) -> Result<(), Fail> {
    let name = read_name(variable).ok_or("a name")?;
    if text.len() > 512 || side.make_room().is_err() {
        return Err(Fail::from("room for a text"));
    }
    side.set_variable(name, text);
    Ok(())
}

fn set_all(side: &mut Dialogue, variables: &[(&[u8], &[u8])]) -> Result<(), Fail> {
    for (variable, text) in variables {
        set(side, *variable, *text)?;
    }
    Ok(())
}

fn is_filled(alloc: Global, side: &Dialogue, part: &[u8], bytes: &[u8]) -> bool {
    match side.resolve(alloc, part) {
        Ok(text) => text.bytes() == bytes,
        Err(_) => false,
    }
}

fn is_refused(alloc: Global, side: &Dialogue, part: &[u8], name: Name) -> bool {
    let Err(refusal) = side.resolve(alloc, part) else {
        return false;
    };
    refusal == Refusal::UnknownVariable(name)
}

/// The first part of a line that is filled or refused otherwise.
fn not_resolved(
    alloc: Global,
    side: &Dialogue,
    filled: &[(&'static [u8], &'static [u8])],
    unknown: &[(&'static [u8], &'static [u8])],
) -> Option<&'static [u8]> {
    for (part, bytes) in filled {
        if !is_filled(alloc, side, *part, *bytes) {
            return Some(*part);
        }
    }
    for (part, name) in unknown {
        let Some(name) = read_name(*name) else {
            return Some(*name);
        };
        if !is_refused(alloc, side, *part, name) {
            return Some(*part);
        }
    }
    None
}

fn not_resolved_by_a_side(alloc: Global) -> Result<Option<&'static [u8]>, Fail> {
    let session = read_name(b"A").ok_or("a session")?;
    let mut side = Dialogue::new(alloc, session);
    set_all(&mut side, &VARIABLES)?;
    Ok(not_resolved(alloc, &side, &FILLED, &UNKNOWN))
}

#[test]
fn names_give_way_to_their_texts(rt: HostRuntime) -> Result<(), Fail> {
    assert_eq!(rt; not_resolved_by_a_side(rt.alloc())?, None);
    Ok(())
}
