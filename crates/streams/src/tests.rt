// What no contract says: that a stream that is not ready is tried again, that an error in mid-stream is not lost, and the line that tells it.
ghost use Rattle.std.specs.Prelude.{◌≤◌, IfOk};

use super::*;
use std::test::Fail;

// A stream that is interrupted, moves two bytes, is not ready, moves two more, and then fails or comes to its end.
#[derive(Drop)]
struct Halting {
    calls: u8,
    breaks: bool,
}

impl Halting {
    fn next(&mut self, most: usize) -> io::Result<usize>
        ensures { IfOk result (λ count. count ≤ most) }
    {
        let call = self.calls;
        self.calls = call.saturating_add(1);
        match call {
            0 => Err(ErrorKind::Interrupted.into()),
            1 | 3 => Ok(most.min(2)),
            2 => Err(ErrorKind::WouldBlock.into()),
            _ if self.breaks => Err(io::Error::from_raw_os_error(104)),
            _ => Ok(0),
        }
    }
}

impl Read for Halting {
    fn read(&mut self, buf: &mut [u8]) -> io::Result<usize> {
        let count = self.next(buf.len())?;
        for byte in &mut buf[..count] {
            *byte = b'a';
        }
        Ok(count)
    }
}

impl Write for Halting {
    fn write(&mut self, buf: &[u8]) -> io::Result<usize> {
        self.next(buf.len())
    }

    fn flush(&mut self) -> io::Result<()> {
        Ok(())
    }
}

#[test]
fn reads_on(rt: HostRuntime) -> Result<(), Fail> {
    let mut input = Halting {
        calls: 0,
        breaks: false,
    };
    let mut buffer = [0u8; 10];
    let got = read_all(&rt, &mut input, &mut buffer, b"test");
    assert!(rt; matches!(got, Ok(4)));
    assert_eq!(rt; buffer, *b"aaaa\0\0\0\0\0\0");
    assert_eq!(rt; input.calls, 5);
    Ok(())
}

#[test]
fn fails_in_mid_stream(rt: HostRuntime) {
    for length in [3, 4, 5] {
        let mut input = Halting {
            calls: 0,
            breaks: true,
        };
        let mut output = Halting {
            calls: 0,
            breaks: true,
        };
        let mut buffer = [0u8; 10];
        let got = read_all(&rt, &mut input, &mut buffer[..length], b"test");
        assert_eq!(rt; matches!(got, Err(Told)), length == 5);
        assert_eq!(rt;
            write_all(&rt, &mut output, &buffer[..length], b"test").is_ok(),
            length < 5
        );
    }
}

#[test]
fn tells(rt: HostRuntime) -> Result<(), Fail> {
    let broken = io::Error::from_raw_os_error(104);
    let line = Line {
        words: b"test: cannot read",
        error: &broken,
    };
    assert_eq!(rt;
        format!(in rt.alloc(); "{line}")?.as_str(),
        "test: cannot read: Connection reset by peer"
    );
    let nothing = io::Error::from(ErrorKind::WriteZero);
    let line = Line {
        words: b"test: cannot write",
        error: &nothing,
    };
    assert_eq!(rt;
        format!(in rt.alloc(); "{line}")?.as_str(),
        "test: cannot write: write zero"
    );
    Ok(())
}
