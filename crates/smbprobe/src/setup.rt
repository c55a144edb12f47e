// The recording that is set up, and the store that holds it.
use crate::answer::told;
use crate::body::{judge_answer, parts_answer};
use crate::console::Console;
use crate::field::{field_answer, set_answer};
use crate::file::{counts_answer, row_answer};
use crate::output::{open_answer, out_answer, put_answer};
use crate::session::Session;
use crate::store::Below;
use crate::words::Words;
use indexfile::row::Row;
use recording::extents::{Extent, Extents};
use recording::plain::Plain;
use recording::stretches::{Stretch, Stretches};
use recording::{Cell, PastEnd, Store};
use records::kind::RecordKind;
use records::sentences::Sentences;
use records::tuples::Tuples;
use std::alloc::{AllocError, Global};
use std::io;
use writing::output::Output;

// The bytes of the recording, or the image that its rows lie in, and the stretches that are lost if
// stretches can be marked; and the output that tuples are put into. Stretches over stretches are not set up.
#[derive(Drop)]
pub struct Setup {
    image: Vec<u8>,
    rows: Option<Vec<Extent>>,
    lost: Option<Vec<Stretch>>,
    output: Output,
}

fn cell_text(heap: Global, cell: Cell) -> Result<String, AllocError> {
    match cell {
        Cell::Byte(b) => format!(in heap; "ok {b}"),
        Cell::Lost => String::from_str(heap, "ok lost"),
    }
}

fn done_text(heap: Global, _: ()) -> Result<String, AllocError> {
    String::from_str(heap, "ok")
}

// A store of which stretches are lost.
fn stretched<S: Store>(below: S, lost: &[Stretch]) -> Stretches<S> {
    let mut store = Stretches::new(below);
    for stretch in lost {
        let _ = store.mark(*stretch);
    }
    store
}

// Whether a line sets up another recording or opens an index.
// Asked before `change`, since an open index ends before the recording changes: one match would be no plainer.
fn sets_up(line: &str) -> bool {
    matches!(
        Words::of(line).word(),
        Some("plain" | "extents" | "stretch" | "mark" | "open" | "newout" | "put")
    )
}

// Answers with an open index, until a line that sets up: that line, or none at the end of the input.
fn serve<S: Store + Drop, K: RecordKind + Copy + Drop>(
    console: &mut Console<'_>,
    setup: &Setup,
    mut session: Session<S, K>,
) -> io::Result<Option<String>> {
    // counted, since no loop of this project may run forever
    for _ in 0..u64::MAX {
        let Some(line) = console.read()? else {
            return Ok(None);
        };
        if sets_up(line.as_str()) {
            return Ok(Some(line));
        }
        let answer = session
            .answer(line.as_str())
            .or_else(|| setup.answer(console.heap(), line.as_str()));
        console.print(answer)?;
    }
    Ok(None)
}

impl Setup {
    // A recording of no cells.
    pub fn new(heap: Global) -> Setup {
        Setup {
            image: Vec::new(heap),
            rows: None,
            lost: None,
            output: Output::new(heap),
        }
    }

    // Follows a line. A line that opens an index is answered with those after it, up to the one returned.
    pub fn follow(&mut self, console: &mut Console<'_>, line: &str) -> io::Result<Option<String>> {
        let mut words = Words::of(line);
        if let Some("open") = words.word() {
            let kind = words.word();
            let rows = words.size();
            return self.open(console, kind, rows);
        }
        let heap = console.heap();
        let changed = self.change(heap, line);
        console.print(changed.or_else(|| self.answer(heap, line)))?;
        Ok(None)
    }

    // Sets up a recording, if the line does.
    // A match, since each command takes words of its own: a table of functions would be no plainer.
    fn change(&mut self, heap: Global, line: &str) -> Option<String> {
        let mut words = Words::of(line);
        match words.word()? {
            "plain" => {
                self.image = words.bytes(heap)?;
                self.rows = None;
                self.lost = None;
            }
            "extents" => {
                let image = words.bytes(heap)?;
                self.rows = Some(words.extents(heap)?);
                self.image = image;
                self.lost = None;
            }
            "stretch" => {
                if self.lost.is_some() {
                    return None;
                }
                self.lost = Some(Vec::new(heap));
            }
            "mark" => {
                let stretch = Stretch {
                    first: words.parsed()?,
                    count: words.parsed()?,
                };
                return self.mark(heap, stretch);
            }
            "newout" => self.output = Output::new(heap),
            "put" => return put_answer(heap, &mut self.output, &mut words),
            _ => return None,
        }
        String::from_str(heap, "ok").ok()
    }

    // The store of the recording, before stretches are lost, for the commands that ask it once.
    fn below(&self) -> Below<'_> {
        match &self.rows {
            None => Below::Bytes(Plain::new(&self.image)),
            Some(rows) => Below::Rows(Extents::new(&self.image, rows)),
        }
    }

    // Marks a stretch, if stretches can be marked.
    fn mark(&mut self, heap: Global, stretch: Stretch) -> Option<String> {
        let marked = stretched(self.below(), self.lost.as_ref()?).mark(stretch);
        let lost = self.lost.as_mut()?;
        if marked.is_ok() {
            lost.push(stretch).ok()?;
        }
        told(heap, marked, done_text).ok()
    }

    // What is answered without an index.
    fn answer(&self, heap: Global, line: &str) -> Option<String> {
        let mut words = Words::of(line);
        match words.word()? {
            "check" => self.check(heap),
            "length" => self.below().len().to_string(heap).ok(),
            "cell" => told(heap, self.cell(words.parsed()?), cell_text).ok(),
            "counts" => counts_answer(heap, &mut words),
            "row" => row_answer(heap, &mut words),
            "field" => field_answer(heap, &mut words),
            "set" => set_answer(heap, &mut words),
            "out" => out_answer(heap, &self.output),
            "opent" => open_answer(heap, &mut words),
            "judge" => judge_answer(heap, &mut words),
            "parts" => parts_answer(heap, &mut words),
            _ => None,
        }
    }

    fn cell(&self, at: u32) -> Result<Cell, PastEnd> {
        match &self.lost {
            None => self.below().cell(at),
            Some(lost) => stretched(self.below(), lost).cell(at),
        }
    }

    fn check(&self, heap: Global) -> Option<String> {
        let rows = Extents::new(&self.image, self.rows.as_ref()?);
        told(heap, rows.check(), done_text).ok()
    }

    fn open(
        &self,
        console: &mut Console<'_>,
        kind: Option<&str>,
        rows: Option<usize>,
    ) -> io::Result<Option<String>> {
        match (kind, rows) {
            (Some("tuple"), Some(rows)) => self.open_as(console, Tuples, rows),
            (Some("sentence"), Some(rows)) => self.open_as(console, Sentences, rows),
            _ => {
                console.print(None)?;
                Ok(None)
            }
        }
    }

    // Opens an index over the store, and answers with it.
    fn open_as<K: RecordKind + Copy + Drop>(
        &self,
        console: &mut Console<'_>,
        kind: K,
        free: usize,
    ) -> io::Result<Option<String>> {
        let heap = console.heap();
        let table = vec![in heap; Row::default(); free]?;
        console.print(String::from_str(heap, "ok").ok())?;
        let plain = Plain::new(&self.image);
        // One arm for each store, so that no cell is looked up through a match.
        match (&self.rows, &self.lost) {
            (None, None) => {
                let stores = (plain, plain);
                serve(console, self, Session::open(heap, stores, kind, table))
            }
            (None, Some(lost)) => {
                let stores = (stretched(plain, lost), stretched(plain, lost));
                serve(console, self, Session::open(heap, stores, kind, table))
            }
            (Some(rows), None) => {
                let pieces = Extents::new(&self.image, rows);
                let stores = (pieces, pieces);
                serve(console, self, Session::open(heap, stores, kind, table))
            }
            (Some(rows), Some(lost)) => {
                let pieces = Extents::new(&self.image, rows);
                let stores = (stretched(pieces, lost), stretched(pieces, lost));
                serve(console, self, Session::open(heap, stores, kind, table))
            }
        }
    }
}
