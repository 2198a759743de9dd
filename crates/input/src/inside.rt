// What only our own programs call.
ghost use Rattle.std.specs.Prelude.{◌≡◌, ◌≤◌, min, length, take, IfOk, IfSome};
ghost use Rattle.std.specs.Io.KnownBytes.{Consumes};

use std::io;
use std::io::Read;

// Reads until the buffer is full or the reader ends; how many octets were read. No clause can say what standard input gives. Where the octets that a
// reader has are known, as many come as there are, at most the buffer's length, and the buffer begins with them; the reader has the others left.
// What then stands after them in the buffer is open, since `read` does not promise to leave it. The loop counts what each `read` gives, which nothing
// but `read` itself tells: std's `read_to_end` needs a heap, and `read_exact` fails where the reader ends.
pub fn fill<R: Read>(reader: &mut R, buf: &mut [u8]) -> io::Result<usize>
    ensures bound { IfOk result (λ n. n ≤ length buf.new) }
    ensures count { IfOk result (λ n. IfSome (R.remaining reader.old) (λ xs. n ≡ min (length xs) (length buf.new))) }
    ensures bytes { IfOk result (λ n. Consumes (R.remaining reader.old) (R.remaining reader.new) (take n buf.new)) }
{
    let mut done: usize = 0;
    while done < buf.len() {
        let n = reader.read(&mut buf[done..])?;
        if n == 0 {
            return Ok(done);
        }
        done += n;
    }
    Ok(done)
}
