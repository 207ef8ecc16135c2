// What a program is given on standard input, or by any other reader.
#![tactic(auto)]

ghost use Rattle.std.specs.Prelude.{ℕ, ◌≤◌, ◌<◌, length, take, IfOk, OnErr};
ghost use Rattle.std.specs.Io.KnownBytes.{Consumes, IsAtEnd};

use std::io;
use std::io::Read;

// Reads until the slice is full or the input ends, and says how many bytes stand at the start of the slice. If a read fails, what was read before it stands there.
pub fn read_full<R: Read>(input: &mut R, slice: &mut [u8]) -> io::Result<usize>
    ensures bound { IfOk result (λ n. n ≤ length slice.new) }
    ensures bytes { IfOk result (λ n. Consumes (R.remaining input.old) (R.remaining input.new) (take n slice.new)) }
    ensures err { OnErr result ((n : ℕ) × Consumes (R.remaining input.old) (R.remaining input.new) (take n slice.new)) }
    ensures end { IfOk result (λ n. n < length slice.new → IsAtEnd (R.remaining input.new)) }
{
    let mut done = 0;
    // A `while`, since how much a read gives is up to the reader.
    while done < slice.len() {
        let n = input.read(&mut slice[done..])?;
        if n == 0 {
            return Ok(done);
        }
        done += n;
    }
    Ok(done)
}

#[cfg(test)]
mod tests {
    use super::*;
    use std::io::{Error, ErrorKind};
    use std::test::Fail;

    // Gives a byte a read, and then fails or ends.
    #[derive(Drop)]
    struct Halting {
        left: usize,
        fails: bool,
    }

    impl Read for Halting {
        fn read(&mut self, buf: &mut [u8]) -> io::Result<usize> {
            if buf.is_empty() {
                return Ok(0);
            }
            if self.left == 0 {
                if self.fails {
                    return Err(Error::from(ErrorKind::BrokenPipe));
                }
                return Ok(0);
            }
            self.left -= 1;
            buf[0] = b'a';
            Ok(1)
        }
    }

    #[test]
    fn reads_up_to_the_slice_or_to_the_end(rt: HostRuntime) -> Result<(), Fail> {
        for (left, want) in [(0, 0), (3, 3), (4, 4), (5, 4)] {
            let mut slice = [b'.'; 4];
            let mut input = Halting { left, fails: false };
            assert_eq!(rt; read_full(&mut input, &mut slice)?, want);
            assert_eq!(rt; input.left, left - want);
            for i in 0..slice.len() {
                assert_eq!(rt; slice[i], if i < want { b'a' } else { b'.' });
            }
        }
        Ok(())
    }

    #[test]
    fn a_read_that_fails_is_told(rt: HostRuntime) {
        let mut slice = [b'.'; 4];
        let mut input = Halting {
            left: 2,
            fails: true,
        };
        assert!(rt; read_full(&mut input, &mut slice).is_err());
        assert_eq!(rt; slice, *b"aa..");
    }
}
