// What no clause of the crates below can say: that their calls succeed while there is memory. In a crate of its own, since a crate with tests is proved twice.
#![tactic(auto)]

#[cfg(test)]
mod tests {
    use hexadecimal::{Hex, HexError, push_hex, unhex};
    use input::Lines;
    use reading::unreadable::Reason;
    use std::io;
    use std::io::{BufRead, ErrorKind, Read};
    use std::test::Fail;
    use text::numbers::push_number;

    // The vectors of RFC 4648 for base 16.
    #[test]
    fn hex_vectors(rt: HostRuntime) -> Result<(), Fail> {
        let vectors = [
            ("", ""),
            ("f", "66"),
            ("fo", "666F"),
            ("foo", "666F6F"),
            ("foob", "666F6F62"),
            ("fooba", "666F6F6261"),
            ("foobar", "666F6F626172"),
        ];
        for (bytes, digits) in vectors {
            let read = unhex(digits.as_bytes(), rt.alloc())?;
            assert_eq!(rt; read.as_slice(), bytes.as_bytes());
            let printed = Hex(bytes.as_bytes()).to_string(rt.alloc())?;
            assert!(rt; printed.as_str().eq_ignore_ascii_case(digits));
        }
        Ok(())
    }

    #[test]
    fn hex_refusals(rt: HostRuntime) {
        assert!(rt; matches!(unhex(b"6g6", rt.alloc()), Err(HexError::Odd)));
        assert!(rt; matches!(unhex(b"6g", rt.alloc()), Err(HexError::NoDigit)));
    }

    // What is appended comes behind what is there, at each call. More bytes than are put into digits at a time, and a word longer than what is shown at a time.
    #[test]
    fn appended(rt: HostRuntime) -> Result<(), Fail> {
        let mut out = vec![in rt.alloc(); b'>'; 1]?;
        push_number(&mut out, 18446744073709551615, rt.alloc())?;
        assert_eq!(rt; out.as_slice(), b">18446744073709551615".as_slice());
        let mut digits = vec![in rt.alloc(); b'=']?;
        push_hex(&mut digits, &[0xa5; 100])?;
        assert!(rt; digits.starts_with(b"=a5a5"));
        assert_eq!(rt; digits.len(), 201);
        let mut word = vec![in rt.alloc(); b'x'; 100]?;
        word.extend_from_slice(b"caf\xc3\xa9")?;
        Reason::NoNumber(word.as_slice()).write(&mut out)?;
        assert!(rt; out.starts_with(b">18446744073709551615no number 'xxx"));
        assert!(rt; out.ends_with(b"xxxcaf??'"));
        assert_eq!(rt; out.len(), 21 + 11 + 100 + 5 + 1);
        Ok(())
    }

    #[test]
    fn lines(rt: HostRuntime) -> Result<(), Fail> {
        let mut lines = Lines::new(rt.alloc(), b"one\n\ntwo\r\nlast".as_slice());
        assert_eq!(rt; lines.next_line()?, Some(b"one".as_slice()));
        assert_eq!(rt; lines.next_line()?, Some(b"".as_slice()));
        assert_eq!(rt; lines.next_line()?, Some(b"two\r".as_slice()));
        assert_eq!(rt; lines.next_line()?, Some(b"last".as_slice()));
        assert_eq!(rt; lines.next_line()?, None);
        Ok(())
    }

    // Of a line of 12,000,003 bytes one more than 12,000,000 is kept, and the next line comes whole.
    #[test]
    fn long_line(rt: HostRuntime) -> Result<(), Fail> {
        let mut text = vec![in rt.alloc(); b'x'; 12000003]?;
        text.extend_from_slice(b"\nnext\n")?;
        let mut lines = Lines::new(rt.alloc(), text.as_slice());
        assert_eq!(rt; lines.next_line()?.map(|line| line.len()), Some(12000001));
        assert_eq!(rt; lines.next_line()?, Some(b"next".as_slice()));
        assert_eq!(rt; lines.next_line()?, None);
        Ok(())
    }

    // A stream that breaks behind its bytes.
    #[derive(Drop)]
    struct Breaks {
        left: &'static [u8],
    }

    impl Read for Breaks {
        fn read(&mut self, _buf: &mut [u8]) -> io::Result<usize> {
            Err(io::Error::from(ErrorKind::BrokenPipe))
        }
    }

    impl BufRead for Breaks {
        fn fill_buf(&mut self) -> io::Result<&[u8]> {
            if self.left.is_empty() {
                return Err(io::Error::from(ErrorKind::BrokenPipe));
            }
            Ok(self.left)
        }

        fn consume(&mut self, amount: usize) {
            let passed = amount.min(self.left.len());
            self.left = &self.left[passed..];
        }
    }

    // A part of a line is no line.
    #[test]
    fn broken_stream(rt: HostRuntime) -> Result<(), Fail> {
        let mut lines = Lines::new(
            rt.alloc(),
            Breaks {
                left: b"whole\npart",
            },
        );
        assert_eq!(rt; lines.next_line()?, Some(b"whole".as_slice()));
        assert!(rt; lines.next_line().is_err());
        assert!(rt; lines.next_line().is_err());
        Ok(())
    }
}
