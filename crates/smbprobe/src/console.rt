// The lines that come in and go out.
use std::alloc::Global;
use std::io;
use std::io::{BufRead, BufReader, Stdin};

#[derive(Drop)]
pub struct Console<'r> {
    rt: &'r HostRuntime,
    input: BufReader<Stdin>,
}

impl<'r> Console<'r> {
    // Without memory for what is read ahead there is no console.
    pub fn new(rt: &'r HostRuntime) -> io::Result<Console<'r>> {
        Ok(Console {
            rt,
            input: BufReader::new(rt.alloc(), rt.stdin())?,
        })
    }

    pub fn heap(&self) -> Global {
        self.rt.alloc()
    }

    // The next line, or none at the end of the input. Bytes that are no text make it no command.
    pub fn read(&mut self) -> io::Result<Option<String>> {
        let mut line = Vec::new(self.heap());
        if self.input.read_until(b'\n', &mut line)? == 0 {
            return Ok(None);
        }
        Ok(Some(String::from_utf8_lossy(self.heap(), &line)?))
    }

    // An answer, or `error` where the line is none of the commands.
    pub fn print(&self, answer: Option<String>) -> io::Result<()> {
        match answer {
            Some(text) => self.rt.println(text),
            None => self.rt.println("error"),
        }
    }
}
