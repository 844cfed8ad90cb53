// Reading and writing whole. A call that a signal interrupts is tried again, at most a thousand times in all, so that it ends.
ghost use Rattle.std.specs.Prelude.{◌≡◌, ◌<◌, ◌≤◌, true, length, take, IfOk, OnOk};
ghost use Rattle.std.specs.Io.KnownBytes.{Appends, Consumes, IsAtEnd};
ghost use Rattle.command.specs.Whole.{Counts};

use std::io;
use std::io::{ErrorKind, Read, Write};

const TRIES: usize = 1000;

// Reads until the buffer is full, the input ends or a read fails, and answers how many bytes it put at the start of the buffer.
pub fn read_all<R: Read>(source: &mut R, buf: &mut [u8]) -> io::Result<usize>
    ensures within { IfOk result (λ n. Counts n buf.new) }
    ensures bytes { IfOk result (λ n. Consumes (R.remaining source.old) (R.remaining source.new) (take n buf.new)) }
    ensures ended { IfOk result (λ n. n < length buf.new → IsAtEnd (R.remaining source.new)) }
{
    let mut done = 0;
    let mut tries = TRIES;
    while done < buf.len() {
        match source.read(&mut buf[done..]) {
            Ok(0) => return Ok(done),
            Ok(n) => done += n,
            Err(reason) => {
                if !again(&reason, tries) {
                    return Err(reason);
                }
                tries -= 1;
            }
        }
    }
    Ok(done)
}

// Writes all of the bytes, or stops at the first write that fails. Some may have been written then.
pub fn write_all<W: Write>(target: &mut W, bytes: &[u8]) -> io::Result<()>
    ensures { OnOk result (Appends (W.contents target.old) (W.contents target.new) bytes.now) }
{
    let mut done = 0;
    let mut tries = TRIES;
    while done < bytes.len() {
        match target.write(&bytes[done..]) {
            Ok(0) => return Err(io::Error::from(ErrorKind::WriteZero)),
            Ok(n) => done += n,
            Err(reason) => {
                if !again(&reason, tries) {
                    return Err(reason);
                }
                tries -= 1;
            }
        }
    }
    Ok(())
}

// Whether the call that has just failed is tried again: a signal interrupted it, and there are tries left.
fn again(reason: &io::Error, tries: usize) -> bool
    ensures { result ≡ true → 1 ≤ tries }
{
    tries > 0 && reason.kind() == ErrorKind::Interrupted
}
