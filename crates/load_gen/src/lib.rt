//! A large script that is made from a number: four sessions, and as many units as the number says.
#![tactic(auto)]

ghost use Rattle.std.specs.Prelude.{◌≡◌, ◌≤◌, ◌++◌, IfOk, OnOk, Some, string_bytes};
ghost use Rattle.load_gen.specs.Script.{commit_line, item_line, header_line, lines_of_unit, lock_line, logon_lines, number_line, script_of, session_of, line_text, statistics_line, text_of, unit_lines, work_lines};

use enq_base::NoMemory;
use std::alloc::Global;
use std::fmt;

/// The script in which four sessions log on, and then take turns in recording this many units, each of which a worker
/// does at once.
pub fn script_of(alloc: Global, count: u32) -> Result<Vec<u8>, NoMemory>
    ensures exact { IfOk result (λ text. text.items ≡ script_of count) }
{
    let mut text = String::new(alloc);
    put_logons(&mut text)?;
    put_units(&mut text, count)?;
    Ok(text.into_bytes())
}

fn put_logons(text: &mut String) -> Result<(), NoMemory>
    ensures { OnOk result (string_bytes text.new ≡ string_bytes text.old ++ text_of logon_lines) }
{
    text.push_str("S1 LOGON U1\nS2 LOGON U2\nS3 LOGON U3\nS4 LOGON U4\n")?;
    Ok(())
}

fn put_units(text: &mut String, count: u32) -> Result<(), NoMemory>
    ensures { OnOk result (string_bytes text.new ≡ string_bytes text.old ++ text_of (unit_lines count)) }
{
    for done in 0..count {
        put_unit(text, done + 1)?;
    }
    Ok(())
}

/// The lines of a unit, which are counted from 1.
fn put_unit(text: &mut String, unit: u32) -> Result<(), NoMemory>
    requires { 1 ≤ unit }
    ensures { OnOk result (string_bytes text.new ≡ string_bytes text.old ++ text_of (lines_of_unit unit)) }
{
    let session = session_of(unit);
    put_lock(text, session, unit)?;
    put_number(text, session)?;
    put_header(text, session, unit)?;
    put_item(text, session, unit)?;
    put_statistics(text, session)?;
    put_commit(text, session)?;
    put_work(text)
}

/// The session that records a unit.
fn session_of(unit: u32) -> u32
    requires { 1 ≤ unit }
    ensures { result ≡ session_of unit }
{
    (unit - 1) % 4 + 1
}

/// A number in ten digits.
#[derive(Clone, Copy)]
struct OrderDigits(u32);

impl fmt::Display for OrderDigits {
    ghost use Rattle.load_gen.specs.Script.{order_digits};

    ghost output = { λ shown. Some (order_digits shown.0) };

    fn fmt<W: fmt::Write>(&self, f: &mut fmt::Formatter<W>) -> fmt::Result {
        let number = self.0;
        write!(f, "{number:010}")
    }
}

#[tactic(auto, unfolding(crate::specs::Script::line_text))]
fn put_lock(text: &mut String, session: u32, unit: u32) -> Result<(), NoMemory>
    ensures { OnOk result (string_bytes text.new ≡ string_bytes text.old ++ line_text (lock_line session unit)) }
{
    let order = OrderDigits(unit);
    write!(text, "S{session} ENQ EZORDER E 2 MANDT=100 ORDNR={order}\n")?;
    Ok(())
}

#[tactic(auto, unfolding(crate::specs::Script::line_text))]
fn put_number(text: &mut String, session: u32) -> Result<(), NoMemory>
    ensures { OnOk result (string_bytes text.new ≡ string_bytes text.old ++ line_text (number_line session)) }
{
    write!(text, "S{session} NUM ZORDNR 01 N\n")?;
    Ok(())
}

#[tactic(auto, unfolding(crate::specs::Script::line_text))]
fn put_header(text: &mut String, session: u32, unit: u32) -> Result<(), NoMemory>
    ensures { OnOk result (string_bytes text.new ≡ string_bytes text.old ++ line_text (header_line session unit)) }
{
    write!(text, "S{session} V1 INS VBAK $N ORDER {unit}\n")?;
    Ok(())
}

#[tactic(auto, unfolding(crate::specs::Script::line_text))]
fn put_item(text: &mut String, session: u32, unit: u32) -> Result<(), NoMemory>
    ensures { OnOk result (string_bytes text.new ≡ string_bytes text.old ++ line_text (item_line session unit)) }
{
    write!(text, "S{session} V1 INS VBAP $N-10 ITEM {unit}\n")?;
    Ok(())
}

#[tactic(auto, unfolding(crate::specs::Script::line_text))]
fn put_statistics(text: &mut String, session: u32) -> Result<(), NoMemory>
    ensures { OnOk result (string_bytes text.new ≡ string_bytes text.old ++ line_text (statistics_line session)) }
{
    write!(text, "S{session} V2 ADD STAT ORDERS 1\n")?;
    Ok(())
}

#[tactic(auto, unfolding(crate::specs::Script::line_text))]
fn put_commit(text: &mut String, session: u32) -> Result<(), NoMemory>
    ensures { OnOk result (string_bytes text.new ≡ string_bytes text.old ++ line_text (commit_line session)) }
{
    write!(text, "S{session} COMMIT\n")?;
    Ok(())
}

/// A worker does both parts of the unit.
#[tactic(auto, unfolding(crate::specs::Script::line_text))]
fn put_work(text: &mut String) -> Result<(), NoMemory>
    ensures { OnOk result (string_bytes text.new ≡ string_bytes text.old ++ text_of work_lines) }
{
    text.push_str("@1 TAKE1\n@1 DO1\n@1 TAKE2\n@1 DO2\n")?;
    Ok(())
}
