// Answers about fields of bodies.
use crate::digits::{hex_text, push_hex};
use crate::words::Words;
use fields::fault::FieldFault;
use fields::read::{Field, field_place, read_field};
use fields::set::set_field;
use lister::refusal_line;
use std::alloc::{AllocError, Global};

// A run, and where in the body it begins and ends.
fn run_line(heap: Global, run: &[u8], at: usize) -> Result<String, AllocError> {
    let text = hex_text(heap, run)?;
    let end = at.saturating_add(run.len());
    format!(in heap; "ok run {text} {at} {end}")
}

fn read_line(heap: Global, t: u32, body: &[u8], n: usize) -> Result<String, AllocError> {
    match (read_field(t, body, n), field_place(t, body, n)) {
        (Ok(Field::Number(x)), _) => format!(in heap; "ok number {x}"),
        (Ok(Field::Signed(x)), _) => format!(in heap; "ok signed {x}"),
        (Ok(Field::Run(run)), Ok((at, _))) => run_line(heap, run, at),
        (Err(fault), _) | (_, Err(fault)) => refusal_line(heap, &fault),
    }
}

fn set_line(heap: Global, set: Result<(), FieldFault>, body: &[u8]) -> Result<String, AllocError> {
    let mut text = match set {
        Ok(()) => String::from_str(heap, "ok")?,
        Err(fault) => refusal_line(heap, &fault)?,
    };
    text.push(' ')?;
    push_hex(heap, &mut text, body)?;
    Ok(text)
}

// A field that is read.
pub fn field_answer(heap: Global, words: &mut Words<'_>) -> Option<String> {
    let t = words.parsed()?;
    let body = words.bytes(heap)?;
    let n = words.parsed::<u32>()? as usize;
    read_line(heap, t, &body, n).ok()
}

// A field that is set, and the body after it.
pub fn set_answer(heap: Global, words: &mut Words<'_>) -> Option<String> {
    let t = words.parsed()?;
    let mut body = words.bytes(heap)?;
    let n = words.parsed::<u32>()? as usize;
    let set = match words.word()? {
        "number" => set_field(t, &mut body, n, Field::Number(words.parsed()?)),
        "signed" => set_field(t, &mut body, n, Field::Signed(words.parsed()?)),
        "run" => {
            let run = words.bytes(heap)?;
            set_field(t, &mut body, n, Field::Run(&run))
        }
        _ => return None,
    };
    set_line(heap, set, &body).ok()
}
