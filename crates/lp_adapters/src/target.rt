//! Where a record or a log goes.
use std::io;
use std::io::Write;

/// A file, or else the standard output.
#[derive(Drop)]
pub enum Target<F, O> {
    /// A file.
    File(F),
    /// The standard output.
    Out(O),
}

impl<F: Write, O: Write> Write for Target<F, O> {
    fn write(&mut self, buf: &[u8]) -> io::Result<usize> {
        match self {
            Target::File(file) => file.write(buf),
            Target::Out(out) => out.write(buf),
        }
    }

    fn flush(&mut self) -> io::Result<()> {
        match self {
            Target::File(file) => file.flush(),
            Target::Out(out) => out.flush(),
        }
    }
}
