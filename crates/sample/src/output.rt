// Where the programs' text goes.
ghost use Rattle.std.specs.Prelude.{◌≡◌};

use std::fmt::{self, Write};

// A line on its way to the standard output, in one write, or in one for each 128 bytes.
#[derive(Clone, Copy)]
struct Line {
    bytes: [u8; 128],
    used: usize,
}

impl Line {
    const EMPTY: Line = Line {
        bytes: [0; 128],
        used: 0,
    };

    // Writes what there is. A write that fails is passed over.
    fn flush(&mut self)
        ensures { self.new.used ≡ 0 }
    {
        io::write_all(1, &self.bytes[..self.used.min(self.bytes.len())]);
        self.used = 0;
    }
}

impl fmt::Write for Line {
    fn write_str(&mut self, text: &str) -> fmt::Result {
        for byte in text.bytes() {
            if self.used >= self.bytes.len() {
                self.flush();
            }
            self.bytes[self.used] = byte;
            self.used += 1;
        }
        Ok(())
    }
}

// The standard output. A write that fails is passed over, and the next one is tried. (By the kit's `io`: std's own output tells a failure,
// and rests on what is stated of an error's number.)
#[derive(Clone, Copy)]
pub struct Output;

impl Print for Output {
    fn print<D: fmt::Display + Drop>(&self, value: D) -> std::io::Result<()> {
        let mut line = Line::EMPTY;
        let _ = write!(line, "{value}");
        line.flush();
        Ok(())
    }

    fn println<D: fmt::Display + Drop>(&self, value: D) -> std::io::Result<()> {
        let mut line = Line::EMPTY;
        let _ = writeln!(line, "{value}");
        line.flush();
        Ok(())
    }

    fn write_all(&self, bytes: &[u8]) -> std::io::Result<()> {
        io::write_all(1, bytes);
        Ok(())
    }
}
