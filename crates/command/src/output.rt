// Standard output, written and closed.
use crate::Program;
use crate::whole::write_all;
use std::fs::OpenOptions;
use std::{fs, io};

// The errors by which a system tells, late, that bytes which it took are lost: EIO, ENOSPC and EDQUOT.
const NOT_STORED: i32 = 5;

const NO_SPACE: i32 = 28;

const OVER_QUOTA: i32 = 122;

impl Program<'_> {
    // Writes all of the bytes to standard output, or says on standard error why they cannot be written.
    pub fn write_output(&self, bytes: &[u8]) -> bool {
        let written = write_all(&mut self.rt.stdout(), bytes);
        self.or_complain(b"write", b"standard output", written)
            .is_some()
    }

    // Ends the writing to standard output and answers true, or says on standard error that it fails: some systems tell only then that a write failed.
    pub fn close_output(&self) -> bool {
        match self.sync_output() {
            Err(reason) if is_loss(&reason) => self
                .or_complain::<()>(b"write", b"standard output", Err(reason))
                .is_some(),
            _ => true,
        }
    }

    // Waits until what was written to standard output has reached the device, if it is a file. It is opened once more for that, by the name that the
    // system has for it: nothing is known of what is no file, or cannot be opened.
    fn sync_output(&self) -> io::Result<()> {
        let output = "/proc/self/fd/1";
        if !fs::metadata(self.rt, output)?.is_file() {
            return Ok(());
        }
        let file = OpenOptions::new().write(true).open(self.rt, output)?;
        file.sync_all()
    }
}

// Whether the error tells that bytes are lost.
fn is_loss(reason: &io::Error) -> bool {
    matches!(
        reason.raw_os_error(),
        Some(NOT_STORED | NO_SPACE | OVER_QUOTA)
    )
}
