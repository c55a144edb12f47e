// An open index with its table, and the commands that ask it.
use crate::answer::{answer_text, rows_text};
use crate::digits::push_hex;
use crate::words::Words;
use index::Index;
use index::scan::row_of;
use indexfile::row::Row;
use listing::answer::Call;
use recording::Store;
use records::kind::RecordKind;
use std::alloc::{AllocError, Global};

// What a buffer is filled with before a call.
const FILL: u8 = 0xee;

// The index owns one store, and `view` is another of the same recording.
#[derive(Drop)]
pub struct Session<S: Store + Drop, K: RecordKind + Drop> {
    heap: Global,
    view: S,
    kind: K,
    index: Index<S, K>,
    table: Vec<Row>,
}

// A call, and the length of the buffer that it is given, if it takes one.
fn read_call(name: &str, words: &mut Words<'_>) -> Option<(Call, Option<usize>)> {
    let call = match name {
        "scan" => (Call::Scan(words.parsed()?), None),
        "clear" => (Call::Clear(words.parsed()?), None),
        "settle" => (Call::Settle(words.parsed()?), None),
        "fetch" => (Call::Fetch(words.parsed()?), Some(words.size()?)),
        "inspect" => (Call::Inspect(words.parsed()?), Some(words.size()?)),
        "save" => (Call::Save, Some(words.size()?)),
        _ => return None,
    };
    Some(call)
}

fn read_row(words: &mut Words<'_>) -> Option<Row> {
    Some(Row {
        place: words.parsed()?,
        length: words.parsed()?,
        tag: words.parsed()?,
        source_type: words.parsed()?,
        source_id: words.parsed()?,
        time: words.parsed()?,
    })
}

impl<S: Store + Drop, K: RecordKind + Copy + Drop> Session<S, K> {
    // Two stores of the same recording.
    pub fn open(heap: Global, stores: (S, S), kind: K, table: Vec<Row>) -> Session<S, K> {
        let (view, store) = stores;
        Session {
            heap,
            view,
            kind,
            index: Index::open(store, kind),
            table,
        }
    }

    // The answer to a command, if it is one that an index answers. A match, since each takes words of its own:
    // a table of functions would be no plainer.
    pub fn answer(&mut self, line: &str) -> Option<String> {
        let mut words = Words::of(line);
        match words.word()? {
            "test" => self.test(words.parsed()?),
            "list" => self.list().ok(),
            "state" => self.state().ok(),
            "rows" => rows_text(self.heap, self.held()).ok(),
            "setrow" => {
                let n = words.size()?;
                self.set_row(n, read_row(&mut words)?)
            }
            "cut" => self.cut(words.size()?),
            name => {
                let (call, buffer) = read_call(name, &mut words)?;
                self.call(call, buffer).ok()
            }
        }
    }

    fn call(&mut self, call: Call, length: Option<usize>) -> Result<String, AllocError> {
        let mut buffer = vec![in self.heap; FILL; length.unwrap_or(0)]?;
        let answer = self.index.visit(&mut self.table, &mut buffer, call);
        let mut text = answer_text(self.heap, answer)?;
        if length.is_some() {
            text.push(' ')?;
            push_hex(self.heap, &mut text, &buffer)?;
        }
        Ok(text)
    }

    fn state(&self) -> Result<String, AllocError> {
        let place = self.index.place();
        let skipped = self.index.skipped();
        let rows = self.index.rows();
        format!(in self.heap; "{place} {skipped} {rows}")
    }

    // The rows held, as far as the table has them.
    fn held(&self) -> &[Row] {
        let held = self.table.len().min(self.index.rows() as usize);
        &self.table[..held]
    }

    fn set_row(&mut self, n: usize, row: Row) -> Option<String> {
        *self.table.get_mut(n)? = row;
        String::from_str(self.heap, "ok").ok()
    }

    fn cut(&mut self, rows: usize) -> Option<String> {
        self.table.truncate(rows);
        String::from_str(self.heap, "ok").ok()
    }

    fn test(&self, at: u32) -> Option<String> {
        match self.kind.record(&self.view, at) {
            Some(record) => record.to_string(self.heap).ok(),
            None => String::from_str(self.heap, "nothing").ok(),
        }
    }

    // The whole listing, with no index.
    fn list(&self) -> Result<String, AllocError> {
        let mut rows = Vec::new(self.heap);
        let mut skipped = 0u32;
        let mut next = 0u32;
        // every place is passed, since no loop of this project may run forever
        for place in 0..self.view.len() {
            if place < next {
                continue;
            }
            match self.kind.record(&self.view, place) {
                Some(x) => {
                    next = place.saturating_add(x.length);
                    rows.push(row_of(place, x))?;
                }
                None => skipped = skipped.saturating_add(1),
            }
        }
        let listed = rows_text(self.heap, &rows)?;
        format!(in self.heap; "skipped {skipped} rows {listed}")
    }
}
