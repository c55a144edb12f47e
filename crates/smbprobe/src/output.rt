// Answers about tuples that are written, and taken apart again.
use crate::answer::told;
use crate::digits::hex_text;
use crate::words::Words;
use lister::refusal_line;
use std::alloc::{AllocError, Global};
use writing::header::Header;
use writing::output::Output;
use writing::refusal::PutError;
use writing::tuple::{Tuple, open};

// Puts a tuple into the output.
pub fn put_answer(heap: Global, output: &mut Output, words: &mut Words<'_>) -> Option<String> {
    let header = Header {
        source_type: words.parsed()?,
        source_id: words.parsed()?,
        data_type: words.parsed()?,
        time: words.parsed()?,
    };
    let body = words.bytes(heap)?;
    match output.put(header, &body) {
        Ok(()) => String::from_str(heap, "ok").ok(),
        Err(PutError::Refused(refusal)) => refusal_line(heap, &refusal).ok(),
        Err(PutError::Memory) => None,
    }
}

pub fn out_answer(heap: Global, output: &Output) -> Option<String> {
    hex_text(heap, output.bytes()).ok()
}

fn tuple_text(heap: Global, tuple: Tuple<'_>) -> Result<String, AllocError> {
    let Header {
        source_type,
        source_id,
        data_type,
        time,
    } = tuple.header;
    let body = hex_text(heap, tuple.body)?;
    format!(in heap; "ok {source_type} {source_id} {data_type} {time} {body}")
}

// Takes a tuple apart.
pub fn open_answer(heap: Global, words: &mut Words<'_>) -> Option<String> {
    let bytes = words.bytes(heap)?;
    told(heap, open(&bytes), tuple_text).ok()
}
