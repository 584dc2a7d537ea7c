ghost use Rattle.std.specs.Prelude.{◌≡◌, ◌++◌, decimal, IfOk, OnOk};
ghost use Rattle.cover_cmd.specs.Texts.{cover_text, lack_line, row, verdict};

use coverage::Lack;
use enq_base::NoMemory;
use script_runner::digits;
use std::alloc::Global;

/// A line for each lack, in order, and then whether there are none.
pub(crate) fn cover_text(alloc: Global, lacks: &[Lack]) -> Result<Vec<u8>, NoMemory>
    ensures { IfOk result (λ text. text.items ≡ cover_text lacks.now) }
{
    let mut text = Vec::new(alloc);
    for lack in lacks {
        add_lack(&mut text, lack)?;
    }
    add(&mut text, verdict(lacks))?;
    Ok(text)
}

fn add_lack(text: &mut Vec<u8>, lack: &Lack) -> Result<(), NoMemory>
    ensures { OnOk result (text.new.items ≡ text.old.items ++ lack_line lack.now) }
{
    match lack {
        Lack::Lengths(table) => add_row(text, b"LENGTHS", table.bytes()),
        Lack::Line(number) => add_numbered(text, *number, b"LINE"),
        Lack::Variable(number) => add_numbered(text, *number, b"VARIABLE"),
        Lack::Read(number) => add_numbered(text, *number, b"READ"),
        Lack::Write(number) => add_numbered(text, *number, b"WRITE"),
        Lack::SecondPart(number) => add_numbered(text, *number, b"V2"),
    }
}

fn add_numbered(text: &mut Vec<u8>, number: u32, word: &[u8]) -> Result<(), NoMemory>
    ensures { OnOk result (text.new.items ≡ text.old.items ++ row (decimal number) word.now) }
{
    add_row(text, digits(u64::from(number)).as_slice(), word)
}

/// A line of two words.
fn add_row(text: &mut Vec<u8>, first: &[u8], second: &[u8]) -> Result<(), NoMemory>
    ensures { OnOk result (text.new.items ≡ text.old.items ++ row first.now second.now) }
{
    add(text, first)?;
    add(text, b" ")?;
    add(text, second)?;
    add(text, b"\n")
}

fn add(text: &mut Vec<u8>, bytes: &[u8]) -> Result<(), NoMemory>
    ensures { OnOk result (text.new.items ≡ text.old.items ++ bytes.now) }
{
    text.extend_from_slice(bytes)?;
    Ok(())
}

fn verdict(lacks: &[Lack]) -> &'static [u8]
    ensures { result.now ≡ verdict lacks.now }
{
    if lacks.is_empty() {
        b"COVERED\n"
    } else {
        b"NOT COVERED\n"
    }
}
