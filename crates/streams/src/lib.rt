// Reading a stream into lent bytes.
#![tactic(auto)]

ghost use Rattle.std.specs.Prelude.{◌<◌, ◌≡◌, length, take, IfOk};
ghost use Rattle.std.specs.Io.{ReadsAtMost};
ghost use Rattle.std.specs.Io.KnownBytes.{Consumes, IsAtEnd};

use std::io;
use std::io::Read;

// Reads until the bytes are full or the stream ends, and gives how many it put at their front.
pub fn read_full<R: Read>(stream: &mut R, bytes: &mut [u8]) -> io::Result<usize>
    ensures bound { ReadsAtMost result bytes.new }
    ensures length { length bytes.new ≡ length bytes.old }
    ensures read { IfOk result (λ n. Consumes (R.remaining stream.old) (R.remaining stream.new) (take n bytes.new)) }
    ensures end { IfOk result (λ n. n < length bytes.new → IsAtEnd (R.remaining stream.new)) }
{
    let mut at = 0;
    // A `match`, and no `?`: the edit `takes_an_error_for_the_end` stands on its last arm.
    while at < bytes.len() {
        match stream.read(&mut bytes[at..]) {
            Ok(0) => return Ok(at),
            Ok(n) => at += n,
            Err(e) => return Err(e),
        }
    }
    Ok(at)
}

#[cfg(test)]
mod tests {
    use super::*;
    use std::io::ErrorKind;
    use std::test::Fail;

    // Gives a byte at each read, and fails at the third.
    #[derive(Drop)]
    struct Broken {
        reads: u8,
    }

    impl Read for Broken {
        fn read(&mut self, buf: &mut [u8]) -> io::Result<usize> {
            if 2 <= self.reads || buf.is_empty() {
                return Err(io::Error::from(ErrorKind::BrokenPipe));
            }
            self.reads += 1;
            buf[0] = self.reads;
            Ok(1)
        }
    }

    #[test]
    fn to_the_end(rt: HostRuntime) -> Result<(), Fail> {
        let mut stream = b"abc".as_slice();
        let mut bytes = [0u8; 5];
        let n = read_full(&mut stream, &mut bytes)?;
        assert_eq!(rt; n, 3);
        assert_eq!(rt; bytes, [97, 98, 99, 0, 0]);
        Ok(())
    }

    #[test]
    fn until_full(rt: HostRuntime) -> Result<(), Fail> {
        let mut stream = b"abc".as_slice();
        let mut bytes = [0u8; 2];
        let n = read_full(&mut stream, &mut bytes)?;
        assert_eq!(rt; n, 2);
        assert_eq!(rt; bytes, [97, 98]);
        assert_eq!(rt; stream, b"c".as_slice());
        Ok(())
    }

    #[test]
    fn a_byte_at_a_time(rt: HostRuntime) -> Result<(), Fail> {
        let mut stream = Broken { reads: 0 };
        let mut bytes = [0u8; 2];
        let n = read_full(&mut stream, &mut bytes)?;
        assert_eq!(rt; n, 2);
        assert_eq!(rt; bytes, [1, 2]);
        Ok(())
    }

    #[test]
    fn a_failed_read_is_no_end(rt: HostRuntime) -> Result<(), Fail> {
        let mut stream = Broken { reads: 0 };
        let mut bytes = [0u8; 3];
        match read_full(&mut stream, &mut bytes) {
            Ok(_) => assert!(rt; false),
            Err(e) => assert!(rt; e.kind() == ErrorKind::BrokenPipe),
        }
        Ok(())
    }
}
