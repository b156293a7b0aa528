// Input read in whole pieces: what the programs share.
#![tactic(auto)]

ghost use Rattle.std.specs.Prelude.{◌<◌, length, take, IfOk};
ghost use Rattle.std.specs.Io.{ReadsAtMost};
ghost use Rattle.std.specs.Io.KnownBytes.{Consumes, IsAtEnd};

use std::io;
use std::io::Read;

// Reads until `buf` is full or the input ends, and answers how many bytes it put at the front of `buf`: the next ones of the input, and fewer than `buf` has
// only where the input has no more.
pub fn read_full<R: Read>(input: &mut R, buf: &mut [u8]) -> io::Result<usize>
    ensures bound { ReadsAtMost result buf.new }
    ensures bytes { IfOk result (λ n. Consumes (R.remaining input.old) (R.remaining input.new) (take n buf.new)) }
    ensures end { IfOk result (λ n. n < length buf.new → IsAtEnd (R.remaining input.new)) }
{
    let mut done = 0;
    while done < buf.len() {
        let n = input.read(&mut buf[done..])?;
        if n == 0 {
            break;
        }
        done += n;
    }
    Ok(done)
}

#[cfg(test)]
mod tests {
    use super::*;
    use std::test::Fail;

    // Gives one byte a read, and fails where none is left.
    #[derive(Drop)]
    struct Slow<'a> {
        rest: &'a [u8],
    }

    impl Read for Slow<'_> {
        fn read(&mut self, buf: &mut [u8]) -> io::Result<usize> {
            let Some((first, rest)) = self.rest.split_first() else {
                return Err(io::Error::from(io::ErrorKind::NotConnected));
            };
            if buf.is_empty() {
                return Ok(0);
            }
            buf[0] = *first;
            self.rest = rest;
            Ok(1)
        }
    }

    #[test]
    fn reads_until_full_or_at_the_end(rt: HostRuntime) -> Result<(), Fail> {
        let mut buf = [0u8; 3];
        let mut input: &[u8] = b"abcde";
        assert_eq!(rt; read_full(&mut input, &mut buf)?, 3);
        assert!(rt; buf == *b"abc");
        assert_eq!(rt; read_full(&mut input, &mut buf)?, 2);
        assert!(rt; &buf[..2] == b"de".as_slice());
        assert_eq!(rt; read_full(&mut input, &mut buf)?, 0);
        Ok(())
    }

    #[test]
    fn hands_a_failure_on(rt: HostRuntime) -> Result<(), Fail> {
        let mut buf = [0u8; 3];
        let mut input = Slow { rest: b"abcd" };
        assert_eq!(rt; read_full(&mut input, &mut buf)?, 3);
        assert!(rt; buf == *b"abc");
        assert!(rt; read_full(&mut input, &mut buf).is_err());
        Ok(())
    }
}
