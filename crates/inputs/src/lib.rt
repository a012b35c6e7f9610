// What the programs read: a whole input, into a buffer of a fixed size.
#![tactic(auto)]

ghost use Rattle.std.specs.Prelude.{◌<◌, length, take, IfOk};
ghost use Rattle.std.specs.Io.{ReadsAtMost};
ghost use Rattle.std.specs.Io.KnownBytes.{Consumes, IsAtEnd};

use std::io;
use std::io::Read;

// Reads until the buffer is full or the input ends, and answers how many bytes it put at the start of the buffer. A read that
// fails ends it with that error, when some bytes may have been read.
pub fn read_full<R: Read>(input: &mut R, buffer: &mut [u8]) -> io::Result<usize>
    ensures counts { ReadsAtMost result buffer.new }
    ensures bytes { IfOk result (λ n. Consumes (R.remaining input.old) (R.remaining input.new) (take n buffer.new)) }
    ensures end { IfOk result (λ n. n < length buffer.new → IsAtEnd (R.remaining input.new)) }
{
    let mut done = 0;
    // By hand: `read_exact` fails where the input ends early, and `read_to_end` fills a heap's Vec and not this buffer.
    while done < buffer.len() {
        let n = input.read(&mut buffer[done..])?;
        if n == 0 {
            break;
        }
        done += n;
    }
    Ok(done)
}

#[cfg(test)]
mod tests {
    use super::*;
    use std::io::{Error, ErrorKind};
    use std::test::Fail;

    // Gives a byte at each read, and fails when it has given `left` of them.
    #[derive(Drop)]
    struct Failing {
        left: usize,
    }

    impl Read for Failing {
        fn read(&mut self, buffer: &mut [u8]) -> io::Result<usize> {
            if self.left == 0 {
                return Err(Error::from(ErrorKind::BrokenPipe));
            }
            if buffer.len() == 0 {
                return Ok(0);
            }
            self.left -= 1;
            buffer[0] = 7;
            Ok(1)
        }
    }

    #[test]
    fn reads_to_the_end(rt: HostRuntime) -> Result<(), Fail> {
        let mut input = b"ab".as_slice().chain(b"c".as_slice());
        let mut buffer = [0u8; 5];
        let n = read_full(&mut input, &mut buffer)?;
        assert_eq!(rt; n, 3);
        assert_eq!(rt; buffer.as_slice(), b"abc\0\0".as_slice());
        Ok(())
    }

    #[test]
    fn stops_at_a_full_buffer(rt: HostRuntime) -> Result<(), Fail> {
        let mut input = b"abcde".as_slice();
        let mut buffer = [0u8; 3];
        let n = read_full(&mut input, &mut buffer)?;
        assert_eq!(rt; n, 3);
        assert_eq!(rt; buffer.as_slice(), b"abc".as_slice());
        assert_eq!(rt; input, b"de".as_slice());
        Ok(())
    }

    #[test]
    fn answers_the_error(rt: HostRuntime) -> Result<(), Fail> {
        let mut buffer = [0u8; 4];
        let mut full = Failing { left: 4 };
        assert_eq!(rt; read_full(&mut full, &mut buffer)?, 4);
        let mut input = Failing { left: 3 };
        let answer = read_full(&mut input, &mut buffer);
        assert!(rt; answer.is_err());
        Ok(())
    }
}
