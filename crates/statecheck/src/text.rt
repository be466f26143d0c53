// Text collected in a buffer for standard output.
ghost use Rattle.std.specs.Prelude.{◌≤◌};

use std::fmt;
use std::io::writer;
use std::time::Clock;
use streams::Told;

// A full buffer is written and begun again. A write that fails is told and is an error, behind which nothing more is put or written.
#[derive(Drop)]
pub struct Buffer<'a, R> {
    rt: &'a R,
    bytes: [u8; 65536],
    length: usize,
    ghost within: { length ≤ 65536 },
}

impl<'a, R: Print + Eprint + Clock> Buffer<'a, R> {
    // An empty buffer.
    pub fn new(rt: &'a R) -> Self {
        Buffer {
            rt,
            bytes: streams::room::<65536>(),
            length: 0,
        }
    }

    // Writes what was put since the buffer was last full.
    pub fn write(&self) -> Result<(), Told> {
        streams::write_all(
            self.rt,
            &mut writer(self.rt),
            &self.bytes[..self.length],
            b"statecheck: cannot write standard output",
        )
    }

    // One byte.
    fn put(&mut self, byte: u8) -> Result<(), Told> {
        if self.length == 65536 {
            self.write()?;
            self.length = 0;
        }
        self.bytes[self.length] = byte;
        self.length += 1;
        Ok(())
    }
}

impl<R: Print + Eprint + Clock> fmt::Write for Buffer<'_, R> {
    fn write_str(&mut self, text: &str) -> fmt::Result {
        for byte in text.as_bytes() {
            self.put(*byte)?;
        }
        Ok(())
    }
}
