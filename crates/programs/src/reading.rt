// A text out of a reader. Nothing is allocated: the caller lends the room.
ghost use Rattle.std.specs.Prelude.{◌<◌, length, take, IfOk};
ghost use Rattle.std.specs.Io.{ReadsAtMost};
ghost use Rattle.std.specs.Io.KnownBytes.{Consumes, IsAtEnd};

use std::io;
use std::io::Read;

// Reads until the reader gives no more or the text is full, and answers how many of its bytes were read. An error of a
// read is returned, one that says interrupted too: the programs handle no signals, so none interrupts a read.
pub fn read_full<R: Read>(reader: &mut R, text: &mut [u8]) -> io::Result<usize>
    ensures bound { ReadsAtMost result text.new }
    ensures bytes { IfOk result (λ size. Consumes (R.remaining reader.old) (R.remaining reader.new) (take size text.new)) }
    ensures end { IfOk result (λ size. size < length text.new → IsAtEnd (R.remaining reader.new)) }
{
    let mut size = 0;
    while size < text.len() {
        let count = reader.read(&mut text[size..])?;
        if count == 0 {
            return Ok(size);
        }
        size += count;
    }
    Ok(size)
}
