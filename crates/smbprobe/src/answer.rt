// What calls answer, as text. Functions and no Display: the types are of other crates, and the words the console's.
use indexfile::row::Row;
use layouts::settings::Counter;
use lister::refusal_line;
use listing::answer::{Answer, Finding, Scanned, Stop};
use refusals::Refusal;
use std::alloc::{AllocError, Global};
use std::fmt;

// The text of what was answered, or the line of the refusal.
pub(crate) fn told<
    T: Drop,
    R: Refusal + Drop,
    F: FnOnce(Global, T) -> Result<String, AllocError> + Drop,
>(heap: Global, answer: Result<T, R>, text: F) -> Result<String, AllocError>
    requires { F.IsAlwaysCallable text }
{
    match answer {
        Ok(x) => text(heap, x),
        Err(refusal) => refusal_line(heap, &refusal),
    }
}

// The rows with semicolons between them, or `-` for none.
pub fn rows_text(heap: Global, rows: &[Row]) -> Result<String, AllocError> {
    let Some((first, others)) = rows.split_first() else {
        return String::from_str(heap, "-");
    };
    let mut text = first.to_string(heap)?;
    for row in others {
        write!(text, "; {row}")?;
    }
    Ok(text)
}

fn scanned_text(heap: Global, scanned: Scanned) -> Result<String, AllocError> {
    let stop = match scanned.stop {
        Stop::Ended => "ended",
        Stop::Spent => "spent",
        Stop::Full => "full",
    };
    let Scanned { tests, added, .. } = scanned;
    format!(in heap; "ok {stop} {tests} {added}")
}

fn cleared_text(heap: Global, crossing: Option<u32>) -> Result<String, AllocError> {
    match crossing {
        None => String::from_str(heap, "ok yes"),
        Some(place) => format!(in heap; "ok crossed {place}"),
    }
}

fn settled_text(heap: Global, counter: Counter) -> Result<String, AllocError> {
    match counter {
        Counter::With => String::from_str(heap, "ok with"),
        Counter::Without => String::from_str(heap, "ok without"),
    }
}

fn inspected_text(heap: Global, found: Option<Finding>) -> Result<String, AllocError> {
    match found {
        None => String::from_str(heap, "ok sound"),
        Some(finding) => {
            let row = finding.row;
            let data_type = finding.fault.data_type;
            let notice = finding.notice();
            format!(in heap; "ok finding {row} {data_type} {notice}")
        }
    }
}

pub fn ok_text<T: fmt::Display + Drop>(heap: Global, x: T) -> Result<String, AllocError> {
    format!(in heap; "ok {x}")
}

pub fn answer_text(heap: Global, answer: Answer) -> Result<String, AllocError> {
    match answer {
        Answer::Scan(answer) => told(heap, answer, scanned_text),
        Answer::Clear(answer) => told(heap, answer, cleared_text),
        Answer::Fetch(answer) => told(heap, answer, ok_text),
        Answer::Settle(answer) => told(heap, answer, settled_text),
        Answer::Inspect(answer) => told(heap, answer, inspected_text),
        Answer::Save(answer) => told(heap, answer, ok_text),
    }
}
