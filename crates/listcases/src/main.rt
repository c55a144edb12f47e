// Lists the cases of `cases.txt`, and says of each whether its rows are those that stand there.
//   case NAME            begins a case
//   bytes HEX            bytes of its recording
//   text LINE            a line of its recording, with CR LF behind it
//   tuples | sentences   what it is a recording of
//   row ..| end ..       the lines that its listing has, in order
//   done                 ends it
#![tactic(auto)]

use lister::{Listed, end_line, list, row_line};
use records::kind::RecordKind;
use records::sentences::Sentences;
use records::tuples::Tuples;
use std::alloc::Global;
use std::{fs, io};

#[derive(Clone, Copy, PartialEq, Eq)]
enum Kind {
    Tuples,
    Sentences,
}

// A case, as far as it was read.
#[derive(Drop)]
struct Case {
    name: String,
    recording: Vec<u8>,
    kind: Kind,
    lines: String,
}

impl Case {
    fn new(heap: Global, name: &str) -> io::Result<Case> {
        Ok(Case {
            name: String::from_str(heap, name)?,
            recording: Vec::new(heap),
            kind: Kind::Tuples,
            lines: String::new(heap),
        })
    }

    // Takes in a line of the case.
    fn read(&mut self, heap: Global, word: &str, rest: &str) -> io::Result<()> {
        match word {
            "tuples" => self.kind = Kind::Tuples,
            "sentences" => self.kind = Kind::Sentences,
            "bytes" => {
                if let Ok(bytes) = hex::decode(heap, rest) {
                    self.recording.extend_from_slice(&bytes)?;
                }
            }
            "text" => {
                self.recording.extend_from_slice(rest.as_bytes())?;
                self.recording.extend_from_slice(b"\r\n")?;
            }
            "row" => writeln!(self.lines, "{rest}")?,
            _ => writeln!(self.lines, "{word} {rest}")?,
        }
        Ok(())
    }

    // The lines of the recording's listing.
    fn listing(&self, heap: Global) -> io::Result<String> {
        match self.kind {
            Kind::Tuples => lines_of(heap, Tuples, &self.recording),
            Kind::Sentences => lines_of(heap, Sentences, &self.recording),
        }
    }

    // Whether the listing has the lines that are wanted.
    fn holds(&self, heap: Global) -> io::Result<bool> {
        Ok(self.listing(heap)?.as_str() == self.lines.as_str())
    }
}

fn lines_of<K: RecordKind + Drop>(heap: Global, kind: K, recording: &[u8]) -> io::Result<String> {
    let mut text = String::new(heap);
    if let Ok(Listed { rows, counts }) = list(heap, kind, recording) {
        for row in &rows {
            let line = row_line(heap, *row)?;
            writeln!(text, "{line}")?;
        }
        let line = end_line(heap, counts)?;
        writeln!(text, "{line}")?;
    }
    Ok(text)
}

fn main(rt: HostRuntime) -> io::Result<()> {
    let text = fs::read_to_string(&rt, "cases.txt")?;
    let mut case = Case::new(rt.alloc(), "")?;
    let mut differ = 0u32;
    for line in text.lines() {
        match line.split_once(' ').unwrap_or((line, "")) {
            ("" | "#", _) => {}
            ("case", name) => case = Case::new(rt.alloc(), name)?,
            ("done", _) => {
                let holds = case.holds(rt.alloc())?;
                let name = case.name.as_str();
                if holds {
                    println!(rt; "{name}: as wanted")?;
                } else {
                    differ = differ.saturating_add(1);
                    println!(rt; "{name}: differs")?;
                }
            }
            (word, rest) => case.read(rt.alloc(), word, rest)?,
        }
    }
    println!(rt; "{differ} differ")
}
