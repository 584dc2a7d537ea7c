use enq_base::{BackupBad, UnitKey};
use enq_cmd::Why;
use enqd_texts::{EndLine, help_text, usage_text, version_text};
use std::test::*;

const UNIT: UnitKey = UnitKey {
    start: 1,
    session: 2,
    luw: 3,
};

#[test]
fn each_end_has_its_line(rt: HostRuntime) -> Result<(), Fail> {
    for (why, line) in [
        (Why::Done, ""),
        (Why::BadWords, "enqd: bad words"),
        (
            Why::BadLandscape { rule: 14, place: 3 },
            "enqd: bad landscape, rule 14 at 3",
        ),
        (Why::BadLine(2), "enqd: bad line 2"),
        (Why::SourceFault, "enqd: cannot read"),
        (Why::SinkFault, "enqd: cannot write"),
        (Why::LongLine(1), "enqd: line 1 is too long"),
        (Why::ManyLines, "enqd: too many lines"),
        (Why::StoreFault(4), "enqd: store fault in command 4"),
        (Why::BackupFault(4), "enqd: backup fault in command 4"),
        (
            Why::BadBackup(BackupBad::Bytes { at: 9 }),
            "enqd: bad backup at 9",
        ),
        (
            Why::BadBackup(BackupBad::Missing { unit: UNIT, at: 2 }),
            "enqd: backup lacks a lock of unit 1.2.3 at 2",
        ),
        (
            Why::BadBackup(BackupBad::Clash {
                first: 1,
                second: 2,
            }),
            "enqd: backup entries 1 and 2 clash",
        ),
        (
            Why::BadStore { table: 6, row: 1 },
            "enqd: bad store, table 6 row 1",
        ),
        (Why::NoStart, "enqd: no start number left"),
        (Why::LogFull, "enqd: history full"),
        (Why::NoMemory, "enqd: no memory"),
    ] {
        let line_of_end = EndLine(why).to_string(rt.alloc())?;
        assert_eq!(rt; line_of_end.as_str(), line);
    }
    Ok(())
}

#[test]
fn texts_name_program_command_and_files(rt: HostRuntime) -> Result<(), Fail> {
    let alloc = rt.alloc();
    let help = help_text(alloc)?;
    for word in [
        "replay",
        "landscape.toml",
        "enq.db",
        "run",
        "--workers",
        "cover",
        "gen",
        "load",
        "A LOGON MILLER                                  1 OK\n  A ENQ EZORDER E 1",
        "A LOGOFF                                        3 OK\n\n",
        "README.md",
        "docs/COMMANDS.md",
        "docs/LANDSCAPE.md",
        "docs/OPERATING.md",
        "docs/GLOSSARY.md",
    ] {
        assert!(rt; help.contains(word), "{word}");
    }
    assert!(rt; !help.contains("Print this message"));
    assert!(rt; usage_text(alloc)?.contains("enqd"));
    assert_eq!(rt; version_text(alloc)?.as_str(), "enqd 0.1.0\n");
    Ok(())
}
