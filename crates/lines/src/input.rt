// Reading lines from a file or from a terminal, however many there are.
use std::io;
use std::io::Read;
use std::ops::Range;

// How many bytes are read at once.
const CHUNK: usize = 4096;

// Says of a line that it has more bytes than there are places for.
#[derive(Clone, Copy)]
pub struct TooLong;

// Reads lines. Of the bytes that were read at once, `unread` are still to come; it is None once the input ended. Nothing is read any more then: a terminal
// would go on.
#[derive(Drop)]
pub struct LineReader<R> {
    reader: R,
    chunk: [u8; CHUNK],
    unread: Option<Range<usize>>,
}

impl<R: Read> LineReader<R> {
    // Starts with the first line.
    pub fn new(reader: R) -> LineReader<R> {
        LineReader {
            reader,
            chunk: [0; CHUNK],
            unread: Some(0..0),
        }
    }

    // Reads the next byte, from the chunk or from what is read into it next.
    fn next_byte(&mut self) -> io::Result<Option<u8>> {
        let Some(unread) = &mut self.unread else {
            return Ok(None);
        };
        if unread.is_empty() {
            *unread = 0..self.reader.read(&mut self.chunk)?;
        }
        let byte = unread.next().and_then(|i| self.chunk.get(i).copied());
        if byte.is_none() {
            self.unread = None;
        }
        Ok(byte)
    }

    // Reads the next line, and answers it. If a read fails, what was read of the line is left out. The loop ends where the input gives no more, which no
    // measure could tell beforehand: so it counts, further than any line is long.
    pub fn read_line<'a>(
        &mut self,
        line: &'a mut [u8],
    ) -> io::Result<Option<Result<&'a [u8], TooLong>>> {
        if self.unread.is_none() {
            return Ok(None);
        }
        let mut length = 0usize;
        for _ in 0..u64::MAX {
            match self.next_byte()? {
                None | Some(b'\n') => break,
                Some(b) => {
                    if let Some(place) = line.get_mut(length) {
                        *place = b;
                    }
                    length = length.saturating_add(1);
                }
            }
        }
        Ok(Some(line.get(..length).ok_or(TooLong)))
    }
}
