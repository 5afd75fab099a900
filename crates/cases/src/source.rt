// The list, read from a stream line by line through a buffer.
use std::io;
use std::io::Read;

// How many bytes one read can bring, and how many a line can have with its end.
pub const BUFFER: usize = 65536;

pub const LINE: usize = 524288;

// Where in its buffer a list is read: how many bytes the last read brought there, and which is the next.
#[derive(Clone, Copy)]
pub struct Source {
    pub filled: usize,
    pub next: usize,
}

// A list as it is read.
#[derive(Drop)]
pub struct Reading<R> {
    pub stream: R,
    pub buffer: [u8; BUFFER],
    pub source: Source,
}

// The front of a list.
pub fn begin<R: Read>(stream: R) -> Reading<R> {
    Reading {
        stream,
        buffer: [0; BUFFER],
        source: Source { filled: 0, next: 0 },
    }
}

impl<R: Read> Reading<R> {
    // Reads the next line into the front of `line`, and answers its length; none at the end of the list. One without an
    // end there fills it.
    pub fn read_line(&mut self, line: &mut [u8]) -> io::Result<Option<usize>> {
        for (length, place) in line.iter_mut().enumerate() {
            match self.byte()? {
                Some(b'\n') => return Ok(Some(length)),
                Some(byte) => *place = byte,
                None if length == 0 => return Ok(None),
                None => return Ok(Some(length)),
            }
        }
        Ok(Some(line.len()))
    }

    // The next byte of the list.
    fn byte(&mut self) -> io::Result<Option<u8>> {
        if self.source.filled <= self.source.next {
            self.source.filled = self.stream.read(&mut self.buffer)?;
            self.source.next = 0;
        }
        if self.source.filled <= self.source.next || BUFFER <= self.source.next {
            return Ok(None);
        }
        let byte = self.buffer[self.source.next];
        self.source.next += 1;
        Ok(Some(byte))
    }
}
