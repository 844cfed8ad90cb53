// Writing a file whole: the bytes go into a new file beside it, which takes its name once all of them are there.
use crate::message::ROOM;
use crate::whole::write_all;
use crate::{Program, system};
use file_kinds::FileKind;
use std::fs::File;
use std::io;

impl Program<'_> {
    // Writes all of the bytes to the file of that name, which need not be there; or says on standard error why they cannot be written, and leaves
    // what has the name as it was. A link or a special file is not written: the new file would take its place, and what it stands for would stay
    // as it was.
    pub(crate) fn write_file(&self, name: &[u8], bytes: &[u8]) {
        match file_kinds::kind_at(self.rt, name) {
            FileKind::Link => self.say_cannot(b"write", name, b": it is a symbolic link\n"),
            FileKind::Other => self.say_cannot(b"write", name, b": it is no regular file\n"),
            _ => self.write_beside(name, bytes),
        }
    }

    // Writes the bytes to a file beside the name, which then takes it.
    fn write_beside(&self, name: &[u8], bytes: &[u8]) {
        // A name that did not fit would be cut, and could be that of another file. No path is as long as this.
        let mut text = [0u8; ROOM];
        let n = words::part_name(name, &mut text);
        self.write_through(&text[..n], name, bytes);
    }

    // Writes the bytes to a new file, the part, which then takes the name. If that fails, the part is removed; if there is a file of its name from
    // the start, that one stays.
    fn write_through(&self, part: &[u8], name: &[u8], bytes: &[u8]) {
        let Some(file) = self.or_complain(b"write", part, system::create(self.rt, part)) else {
            return;
        };
        if self.fill_and_name(file, part, name, bytes).is_none() {
            let _ = system::remove(self.rt, part);
        }
    }

    // Stores the bytes in the part, closes it in any case, and gives it the file's name.
    fn fill_and_name(&self, file: File, part: &[u8], name: &[u8], bytes: &[u8]) -> Option<()> {
        self.or_complain(b"write", part, store(file, bytes))?;
        self.or_complain(b"write", name, system::rename(self.rt, part, name))
    }
}

// Writes the bytes and waits until they have reached the device, so that after a power cut the name does not stand for a file without them.
fn store(mut file: File, bytes: &[u8]) -> io::Result<()> {
    write_all(&mut file, bytes)?;
    file.sync_all()
}
