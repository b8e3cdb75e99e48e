// The published vectors of SHA-256, run as tests. In a crate of their own, since a crate with tests is proved twice.
#![tactic(auto)]

#[cfg(test)]
mod tests {
    // The published vectors.
    use sha256::digest;
    use std::test::Fail;

    #[test]
    fn empty(rt: HostRuntime) {
        let wanted =
            b"\xe3\xb0\xc4\x42\x98\xfc\x1c\x14\x9a\xfb\xf4\xc8\x99\x6f\xb9\x24\x27\xae\x41\xe4\x64\x9b\x93\x4c\xa4\x95\x99\x1b\x78\x52\xb8\x55";
        assert_eq!(rt; digest(b""), *wanted);
    }

    #[test]
    fn abc(rt: HostRuntime) {
        let wanted =
            b"\xba\x78\x16\xbf\x8f\x01\xcf\xea\x41\x41\x40\xde\x5d\xae\x22\x23\xb0\x03\x61\xa3\x96\x17\x7a\x9c\xb4\x10\xff\x61\xf2\x00\x15\xad";
        assert_eq!(rt; digest(b"abc"), *wanted);
    }

    #[test]
    fn bits448(rt: HostRuntime) {
        let wanted =
            b"\x24\x8d\x6a\x61\xd2\x06\x38\xb8\xe5\xc0\x26\x93\x0c\x3e\x60\x39\xa3\x3c\xe4\x59\x64\xff\x21\x67\xf6\xec\xed\xd4\x19\xdb\x06\xc1";
        assert_eq!(rt;
            digest(b"abcdbcdecdefdefgefghfghighijhijkijkljklmklmnlmnomnopnopq"),
            *wanted
        );
    }

    #[test]
    fn bits896(rt: HostRuntime) {
        let wanted =
            b"\xcf\x5b\x16\xa7\x78\xaf\x83\x80\x03\x6c\xe5\x9e\x7b\x04\x92\x37\x0b\x24\x9b\x11\xe8\xf0\x7a\x51\xaf\xac\x45\x03\x7a\xfe\xe9\xd1";
        assert_eq!(rt;
            digest(
                b"abcdefghbcdefghicdefghijdefghijkefghijklfghijklmghijklmnhijklmnoijklmnopjklmnopqklmnopqrlmnopqrsmnopqrstnopqrstu",
            ),
            *wanted
        );
    }

    #[test]
    fn million(rt: HostRuntime) -> Result<(), Fail> {
        let message = vec![in rt.alloc(); b'a'; 1000000]?;
        let wanted =
            b"\xcd\xc7\x6e\x5c\x99\x14\xfb\x92\x81\xa1\xc7\xe2\x84\xd7\x3e\x67\xf1\x80\x9a\x48\xa4\x97\x20\x0e\x04\x6d\x39\xcc\xc7\x11\x2c\xd0";
        assert_eq!(rt; digest(message.as_slice()), *wanted);
        Ok(())
    }
}
