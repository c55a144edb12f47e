// Answers about the bytes of index files.
use crate::answer::{ok_text, told};
use crate::words::Words;
use indexfile::counts::Counts;
use indexfile::file::{counts_in, row_in};
use std::alloc::{AllocError, Global};

fn counts_text(heap: Global, counts: Counts) -> Result<String, AllocError> {
    let Counts {
        rows,
        place,
        skipped,
    } = counts;
    format!(in heap; "ok {rows} {place} {skipped}")
}

pub fn counts_answer(heap: Global, words: &mut Words<'_>) -> Option<String> {
    told(heap, counts_in(&words.bytes(heap)?), counts_text).ok()
}

pub fn row_answer(heap: Global, words: &mut Words<'_>) -> Option<String> {
    let file = words.bytes(heap)?;
    told(heap, row_in(&file, words.parsed()?), ok_text).ok()
}
