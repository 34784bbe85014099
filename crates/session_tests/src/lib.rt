//! Sessions by example: whole inputs, and what they are answered.
#![tactic(auto)]

#[cfg(test)]
mod tests {
    use session::Session;
    use std::alloc::{AllocError, Global};
    use std::process::Abort;
    use std::test::Fail;

    // What a session writes for an input that comes in two parts.
    fn answered(heap: Global, first: &[u8], second: &[u8]) -> Result<Vec<u8>, AllocError> {
        let mut out = Vec::new(heap);
        let mut session = Session::new(heap);
        session.feed(first, &mut out)?;
        session.feed(second, &mut out)?;
        session.finish(&mut out)?;
        Ok(out)
    }

    fn expect(rt: &impl Abort, heap: Global, input: &[u8], output: &[u8]) -> Result<(), Fail> {
        let out = answered(heap, input, b"")?;
        assert!(rt; out.as_slice() == output);
        Ok(())
    }

    #[test]
    fn nothing_at_all(rt: HostRuntime) -> Result<(), Fail> {
        expect(&rt, rt.alloc(), b"", b"(end 0 0)\n")
    }

    #[test]
    fn no_kind(rt: HostRuntime) -> Result<(), Fail> {
        expect(
            &rt,
            rt.alloc(),
            b"(post left 00000001)\n(read left)\n\n",
            b"(refused 14)\n(refused 14)\n(refused 14)\n(end 0 0)\n",
        )
    }

    #[test]
    fn patterns_at_the_edges(rt: HostRuntime) -> Result<(), Fail> {
        expect(
            &rt,
            rt.alloc(),
            b"(kind count)\n(post left 7FFFFFFF)\n(read left)\n(post left 80000000)\n(post left FFFFFFFF)\n(read left)\n(post left 80000001)\n(read left)\n(withdraw left 7FFFFFFF)\n(withdraw left 80000001)\n(read left)\n",
            b"(ok)\n(ok)\n(number 7FFFFFFF)\n(refused 1)\n(ok)\n(number 7FFFFFFE)\n(ok)\n(number FFFFFFFF)\n(ok)\n(ok)\n(number FFFFFFFF)\n(end 5 0)\n",
        )
    }

    // What does not fit the display is kept, and shows again once it fits.
    #[test]
    fn an_entry_at_full_range(rt: HostRuntime) -> Result<(), Fail> {
        expect(
            &rt,
            rt.alloc(),
            b"(kind count)\n(post left 7FFFFFFF)\n(post left 00000001)\n(read left)\n(withdraw left 00000002)\n(read left)\n(withdraw left 7FFFFFFF)\n(withdraw left 7FFFFFFE)\n(read left)\n(withdraw left 00000001)\n(read left)\n(post left 00000001)\n(read left)\n",
            b"(ok)\n(ok)\n(ok)\n(refused 3)\n(ok)\n(number 7FFFFFFE)\n(ok)\n(ok)\n(number 80000001)\n(ok)\n(refused 4)\n(ok)\n(number 80000001)\n(end 7 0)\n",
        )
    }

    // The edge of the range, and one rounding where two would lose the last entry.
    #[test]
    fn binary_readings(rt: HostRuntime) -> Result<(), Fail> {
        expect(
            &rt,
            rt.alloc(),
            b"(kind binary64)\n(post left 7FF0000000000000)\n(post left 7FEFFFFFFFFFFFFF)\n(post left 7C8FFFFFFFFFFFFF)\n(read left)\n(withdraw left 7C8FFFFFFFFFFFFF)\n(post left 7C90000000000000)\n(read left)\n(post left 3F800000)\n",
            b"(ok)\n(refused 1)\n(ok)\n(ok)\n(number 7FEFFFFFFFFFFFFF)\n(ok)\n(ok)\n(refused 3)\n(refused 14)\n(end 4 0)\n",
        )?;
        expect(
            &rt,
            rt.alloc(),
            b"(kind binary32)\n(post left 3F800000)\n(post left 33800000)\n(read left)\n(post left 21800000)\n(read left)\n(withdraw left 80000000)\n(post left 00000001)\n(read left)\n",
            b"(ok)\n(ok)\n(ok)\n(number 3F800000)\n(ok)\n(number 3F800001)\n(ok)\n(ok)\n(number 3F800001)\n(end 5 0)\n",
        )
    }

    // Lower case, too few and too many digits, another side, blanks, NUL and a carriage return.
    #[test]
    fn lines_that_are_no_forms(rt: HostRuntime) -> Result<(), Fail> {
        expect(
            &rt,
            rt.alloc(),
            b"(kind count)\n(kind count)\n(post left 0000000a)\n(post left 0000001)\n(post left 000000001)\n(post right 00000001)\n (read left)\n(read left) \n(read left)\r\n(read\0left)\n\0\n(read left\n",
            b"(ok)\n(refused 14)\n(refused 14)\n(refused 14)\n(refused 14)\n(refused 14)\n(refused 14)\n(refused 14)\n(refused 14)\n(refused 14)\n(refused 14)\n(refused 14)\n(end 0 0)\n",
        )
    }

    #[test]
    fn a_last_line_without_its_end(rt: HostRuntime) -> Result<(), Fail> {
        expect(
            &rt,
            rt.alloc(),
            b"(kind count)\n(post left 00000007)\n(post left 00000007)",
            b"(ok)\n(ok)\n(refused 14)\n(end 1 0)\n",
        )
    }

    #[test]
    fn a_line_of_a_megabyte(rt: HostRuntime) -> Result<(), Fail> {
        let heap = rt.alloc();
        let mut input = Vec::from_slice(heap, b"(kind count)\n")?;
        let long = vec![in heap; b'('; 1_000_000]?;
        input.extend_from_slice(long.as_slice())?;
        input.extend_from_slice(b"\n(read left)\n")?;
        expect(
            &rt,
            heap,
            input.as_slice(),
            b"(ok)\n(refused 14)\n(number 00000000)\n(end 0 0)\n",
        )
    }

    #[test]
    fn every_cut_is_answered_alike(rt: HostRuntime) -> Result<(), Fail> {
        let input =
            b"(kind count)\n(post left 0000C350)\n(withdraw left 00000190)\n(read left)\n(read";
        for cut in 0..input.len() {
            let out = answered(rt.alloc(), &input[0..cut], &input[cut..])?;
            assert!(rt;
                out.as_slice()
                    == b"(ok)\n(ok)\n(ok)\n(number 0000C1C0)\n(refused 14)\n(end 2 0)\n".as_slice()
            );
        }
        Ok(())
    }
}
