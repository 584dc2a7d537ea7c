use crate::cases::{Case, Start, Step};
use crate::escapes::decoded;
use crate::faults::{CaseFault, Refusal};
use crate::orders::{
    change_landscape, plan_failure, plan_stop, read_hands, read_image, read_length, read_number,
    read_patch, read_row, read_table, read_words,
};
use crate::scripts::{put_line, span_of};
use std::alloc::Global;
use std::fmt::Display;

/// A document that has a name.
#[derive(Drop)]
struct Document {
    name: String,
    text: Vec<u8>,
}

/// What the lines of a case have given so far: its steps, and what its next start is given. The number is the one that
/// the case is played for.
#[derive(Drop)]
struct Draft {
    number: Option<u64>,
    steps: Vec<Step>,
    landscape: Vec<u8>,
    start: Start,
    block: Block,
}

/// What the lines up to the next `end` belong to.
#[derive(Clone, Copy, PartialEq, Eq)]
enum Block {
    Nothing,
    Landscape,
    Script,
}

/// Reads documents, and behind them the cases, each under its headline.
pub(crate) fn read_cases(alloc: Global, text: &str) -> Result<Vec<Case>, Refusal> {
    let mut documents = Vec::new(alloc);
    let mut cases = Vec::new(alloc);
    let mut line = 1usize;
    for part in text.split("\n== ") {
        if line == 1 {
            read_documents(alloc, part, &mut documents)?;
        } else {
            read_case(alloc, part, line, documents.as_slice(), &mut cases)?;
        }
        line = line
            .saturating_add(1)
            .saturating_add(part.bytes().filter(|byte| *byte == b'\n').count());
    }
    Ok(cases)
}

/// Reads documents, each under a line with its name and above a line `end`.
fn read_documents(alloc: Global, text: &str, documents: &mut Vec<Document>) -> Result<(), Refusal> {
    let mut is_within = false;
    for (place, line) in text.lines().enumerate() {
        if let Err(fault) = take_document_line(alloc, line, &mut is_within, documents) {
            return Err(Refusal {
                line: place.saturating_add(1),
                fault,
            });
        }
    }
    if is_within {
        return Err(Refusal {
            line: 1,
            fault: CaseFault::NoEnd,
        });
    }
    Ok(())
}

fn take_document_line(
    alloc: Global,
    line: &str,
    is_within: &mut bool,
    documents: &mut Vec<Document>,
) -> Result<(), CaseFault> {
    if *is_within {
        if line == "end" {
            *is_within = false;
        } else if let Some(document) = documents.last_mut() {
            put_line(alloc, line, None, &mut document.text)?;
        }
        return Ok(());
    }
    if is_remark(line) {
        return Ok(());
    }
    let Some(name) = line.strip_prefix("document ") else {
        return Err(CaseFault::NoForm);
    };
    documents.push(Document {
        name: String::from_str(alloc, name)?,
        text: Vec::new(alloc),
    })?;
    *is_within = true;
    Ok(())
}

fn is_remark(line: &str) -> bool {
    line.is_empty() || line.starts_with('#')
}

/// Reads a case, from its headline at this line of the whole on. One that is played for several numbers is a case for
/// each of them, and one before them that shows the headline alone.
fn read_case(
    alloc: Global,
    text: &str,
    line: usize,
    documents: &[Document],
    cases: &mut Vec<Case>,
) -> Result<(), Refusal> {
    let (headline, body) = text.split_once('\n').unwrap_or((text, ""));
    let below = line.saturating_add(1);
    let Some(rest) = body.strip_prefix("for ") else {
        let steps = read_steps(alloc, body, below, None, documents)?;
        return put_case(alloc, "==", headline, steps, cases).map_err(|fault| Refusal {
            line,
            fault,
        });
    };
    let (span, body) = rest.split_once('\n').unwrap_or((rest, ""));
    let Some((first, last)) = span_of(span) else {
        return Err(Refusal {
            line: below,
            fault: CaseFault::NoNumber,
        });
    };
    put_case(alloc, "==", headline, Vec::new(alloc), cases).map_err(|fault| Refusal {
        line,
        fault,
    })?;
    for number in first..=last {
        let steps = read_steps(
            alloc,
            body,
            below.saturating_add(1),
            Some(number),
            documents,
        )?;
        put_case(alloc, "for", number, steps, cases).map_err(|fault| Refusal { line, fault })?;
    }
    Ok(())
}

fn put_case<T: Display + Drop>(
    alloc: Global,
    mark: &str,
    headline: T,
    steps: Vec<Step>,
    cases: &mut Vec<Case>,
) -> Result<(), CaseFault> {
    let headline = format!(in alloc; "{mark} {headline}\n")?.into_bytes();
    cases.push(Case { headline, steps })?;
    Ok(())
}

/// Reads what stands under a headline, from this line of the whole on.
fn read_steps(
    alloc: Global,
    text: &str,
    first: usize,
    number: Option<u64>,
    documents: &[Document],
) -> Result<Vec<Step>, Refusal> {
    let mut draft = match first_draft(alloc, number, documents) {
        Ok(draft) => draft,
        Err(fault) => return Err(Refusal { line: first, fault }),
    };
    for (place, line) in text.lines().enumerate() {
        if let Err(fault) = take_line(alloc, line, documents, &mut draft) {
            return Err(Refusal {
                line: first.saturating_add(place),
                fault,
            });
        }
    }
    if draft.block == Block::Nothing {
        Ok(draft.steps)
    } else {
        Err(Refusal {
            line: first,
            fault: CaseFault::NoEnd,
        })
    }
}

/// A case begins with the first document.
fn first_draft(
    alloc: Global,
    number: Option<u64>,
    documents: &[Document],
) -> Result<Draft, CaseFault> {
    let landscape = match documents.first() {
        Some(document) => document.text.as_slice().to_vec(alloc)?,
        None => Vec::new(alloc),
    };
    Ok(Draft {
        number,
        steps: Vec::new(alloc),
        landscape,
        start: Start::new(alloc)?,
        block: Block::Nothing,
    })
}

fn take_line(
    alloc: Global,
    line: &str,
    documents: &[Document],
    draft: &mut Draft,
) -> Result<(), CaseFault> {
    match draft.block {
        Block::Nothing if is_remark(line) => Ok(()),
        Block::Nothing => take_order(alloc, line, documents, draft),
        Block::Landscape if line == "end" => {
            draft.block = Block::Nothing;
            Ok(())
        }
        Block::Landscape => put_line(alloc, line, draft.number, &mut draft.landscape),
        Block::Script if line == "end" => {
            draft.block = Block::Nothing;
            put_start(alloc, draft)
        }
        Block::Script => put_line(alloc, line, draft.number, &mut draft.start.script),
    }
}

/// Ends what the next start is given.
fn put_start(alloc: Global, draft: &mut Draft) -> Result<(), CaseFault> {
    let mut start = std::mem::replace(&mut draft.start, Start::new(alloc)?);
    start.landscape = draft.landscape.as_slice().to_vec(alloc)?;
    draft.steps.push(Step::Start(start))?;
    Ok(())
}

/// Does a line that stands outside a text.
fn take_order(
    alloc: Global,
    line: &str,
    documents: &[Document],
    draft: &mut Draft,
) -> Result<(), CaseFault> {
    let number = draft.number;
    if let Some((device, call)) = line.split_once(" fails at ") {
        return plan_failure(device, call, number, &mut draft.start.faults);
    }
    if let Some((device, call)) = line.split_once(" stops at ") {
        return plan_stop(device, call, number, &mut draft.start.faults);
    }
    if let Some(what) = line.strip_prefix("link hands over ") {
        draft.start.faults.hands = read_hands(what)?;
        return Ok(());
    }
    let (verb, rest) = line.split_once(' ').unwrap_or((line, ""));
    match verb {
        "landscape" => take_landscape(alloc, rest, documents, draft)?,
        "change" => change_landscape(alloc, rest, number, &mut draft.landscape)?,
        "words" => draft.start.words = read_words(alloc, rest, number)?,
        "last" => draft.start.last = Some(read_length(rest)?),
        "row" => draft.steps.push(Step::Put(read_row(alloc, rest, number)?))?,
        "foreign" => draft.start.faults.store.foreign = Some(read_row(alloc, rest, number)?),
        "rows" => draft.steps.push(Step::Rows(read_table(rest)?))?,
        "backup" => draft.steps.push(read_backup(alloc, rest, number)?)?,
        "cut" => draft.steps.push(Step::Cut(read_number(rest, number)?))?,
        "byte" => draft.steps.push(read_patch(alloc, rest, number)?)?,
        "crash" => draft.steps.push(Step::Crash(read_image(rest)?))?,
        "start" => begin_script(alloc, rest, draft)?,
        _ => return Err(CaseFault::NoForm),
    }
    Ok(())
}

/// The backup file is shown, or it has these bytes.
fn read_backup(alloc: Global, text: &str, number: Option<u64>) -> Result<Step, CaseFault> {
    if text.is_empty() {
        return Ok(Step::Backup);
    }
    Ok(Step::Fill(decoded(alloc, text, number)?))
}

/// Makes ready for a script, and shows the words of its start, where it has some.
fn begin_script(alloc: Global, words: &str, draft: &mut Draft) -> Result<(), CaseFault> {
    draft.block = Block::Script;
    if !words.is_empty() {
        let line = format!(in alloc; "start {words}\n")?.into_bytes();
        draft.steps.push(Step::Show(line))?;
    }
    Ok(())
}

/// Takes a document as the landscape, or makes ready for the text of one.
fn take_landscape(
    alloc: Global,
    name: &str,
    documents: &[Document],
    draft: &mut Draft,
) -> Result<(), CaseFault> {
    if name.is_empty() {
        draft.landscape.clear();
        draft.block = Block::Landscape;
        return Ok(());
    }
    for document in documents {
        if document.name.as_str() == name {
            draft.landscape = document.text.as_slice().to_vec(alloc)?;
            return Ok(());
        }
    }
    Err(CaseFault::NoDocument)
}
