//! Kinds by example: sums of two numbers, and what is a number.
#![tactic(auto)]

#[cfg(test)]
mod tests {
    use binary::format::{Binary32, Binary64};
    use kinds::count::Count;
    use kinds::kind::Kind;
    use std::process::Abort;
    use std::test::Fail;

    // Two numbers, the nearest number to their sum and what remains.
    type Sum = (u64, u64, u64, u64);

    // Opposite signs, a power of two and its lower neighbour, numbers below and from the smallest normal one on, halfway on both sides, and the ends of the range.
    const SUMS_64: [Sum; 19] = [
        (
            0x4340_0000_0000_0000,
            0x4008_0000_0000_0000,
            0x4340_0000_0000_0002,
            0xBFF0_0000_0000_0000,
        ),
        (
            0x3FF0_0000_0000_0000,
            0xBFF0_0000_0000_0000,
            0x0000_0000_0000_0000,
            0x0000_0000_0000_0000,
        ),
        (
            0x8000_0000_0000_0000,
            0x8000_0000_0000_0000,
            0x0000_0000_0000_0000,
            0x0000_0000_0000_0000,
        ),
        (
            0x8000_0000_0000_0000,
            0x0000_0000_0000_0000,
            0x0000_0000_0000_0000,
            0x0000_0000_0000_0000,
        ),
        (
            0x4340_0000_0000_0000,
            0x433F_FFFF_FFFF_FFFF,
            0x4350_0000_0000_0000,
            0xBFF0_0000_0000_0000,
        ),
        (
            0x4340_0000_0000_0000,
            0xC33F_FFFF_FFFF_FFFF,
            0x3FF0_0000_0000_0000,
            0x0000_0000_0000_0000,
        ),
        (
            0x000F_FFFF_FFFF_FFFF,
            0x0010_0000_0000_0000,
            0x001F_FFFF_FFFF_FFFF,
            0x0000_0000_0000_0000,
        ),
        (
            0x0010_0000_0000_0000,
            0x800F_FFFF_FFFF_FFFF,
            0x0000_0000_0000_0001,
            0x0000_0000_0000_0000,
        ),
        (
            0x0000_0000_0000_0001,
            0x8000_0000_0000_0002,
            0x8000_0000_0000_0001,
            0x0000_0000_0000_0000,
        ),
        (
            0x3FF0_0000_0000_0000,
            0x3CA0_0000_0000_0000,
            0x3FF0_0000_0000_0000,
            0x3CA0_0000_0000_0000,
        ),
        (
            0x3FF0_0000_0000_0001,
            0x3CA0_0000_0000_0000,
            0x3FF0_0000_0000_0002,
            0xBCA0_0000_0000_0000,
        ),
        (
            0x3FF0_0000_0000_0000,
            0x3CA0_0000_0000_0001,
            0x3FF0_0000_0000_0001,
            0xBC9F_FFFF_FFFF_FFFE,
        ),
        (
            0x3FF0_0000_0000_0000,
            0xBC90_0000_0000_0000,
            0x3FF0_0000_0000_0000,
            0xBC90_0000_0000_0000,
        ),
        (
            0x3FF0_0000_0000_0000,
            0xBC90_0000_0000_0001,
            0x3FEF_FFFF_FFFF_FFFF,
            0x3C8F_FFFF_FFFF_FFFE,
        ),
        (
            0x7FEF_FFFF_FFFF_FFFF,
            0x7C90_0000_0000_0000,
            0x7FEF_FFFF_FFFF_FFFF,
            0x7C90_0000_0000_0000,
        ),
        (
            0x7FEF_FFFF_FFFF_FFFF,
            0x7FEF_FFFF_FFFF_FFFF,
            0x7FEF_FFFF_FFFF_FFFF,
            0x7FEF_FFFF_FFFF_FFFF,
        ),
        (
            0xFFEF_FFFF_FFFF_FFFF,
            0xFC90_0000_0000_0000,
            0xFFEF_FFFF_FFFF_FFFF,
            0xFC90_0000_0000_0000,
        ),
        (
            0x7FEF_FFFF_FFFF_FFFF,
            0x0000_0000_0000_0001,
            0x7FEF_FFFF_FFFF_FFFF,
            0x0000_0000_0000_0001,
        ),
        (
            0x3FF0_0000_0000_0000,
            0x8000_0000_0000_0001,
            0x3FF0_0000_0000_0000,
            0x8000_0000_0000_0001,
        ),
    ];

    const SUMS_32: [Sum; 19] = [
        (0x3F80_0000, 0xBF80_0000, 0x0000_0000, 0x0000_0000),
        (0x8000_0000, 0x8000_0000, 0x0000_0000, 0x0000_0000),
        (0x4B80_0000, 0x3F80_0000, 0x4B80_0000, 0x3F80_0000),
        (0x4B80_0000, 0xBF80_0000, 0x4B7F_FFFF, 0x0000_0000),
        (0x4B80_0001, 0x3F80_0000, 0x4B80_0002, 0xBF80_0000),
        (0x4B80_0000, 0x4B7F_FFFF, 0x4C00_0000, 0xBF80_0000),
        (0x4B80_0000, 0xCB7F_FFFF, 0x3F80_0000, 0x0000_0000),
        (0x007F_FFFF, 0x0080_0000, 0x00FF_FFFF, 0x0000_0000),
        (0x0080_0000, 0x807F_FFFF, 0x0000_0001, 0x0000_0000),
        (0x3F80_0000, 0x3380_0000, 0x3F80_0000, 0x3380_0000),
        (0x3F80_0001, 0x3380_0000, 0x3F80_0002, 0xB380_0000),
        (0x3F80_0000, 0x3380_0001, 0x3F80_0001, 0xB37F_FFFE),
        (0x3F80_0000, 0xB300_0000, 0x3F80_0000, 0xB300_0000),
        (0x7F7F_FFFF, 0x7300_0000, 0x7F7F_FFFF, 0x7300_0000),
        (0x7F7F_FFFF, 0x72FF_FFFF, 0x7F7F_FFFF, 0x72FF_FFFF),
        (0x7F7F_FFFF, 0x7F7F_FFFF, 0x7F7F_FFFF, 0x7F7F_FFFF),
        (0xFF7F_FFFF, 0xF300_0000, 0xFF7F_FFFF, 0xF300_0000),
        (0x4843_5000, 0x3BA3_D70A, 0x4843_5000, 0x3BA3_D70A),
        (0x3BA3_D70A, 0x4843_5000, 0x4843_5000, 0x3BA3_D70A),
    ];

    const SUMS_OF_COUNTS: [Sum; 5] = [
        (0x7FFF_FFFF, 0x0000_0001, 0x7FFF_FFFF, 0x0000_0001),
        (0x8000_0001, 0xFFFF_FFFF, 0x8000_0001, 0xFFFF_FFFF),
        (0x7FFF_FFFF, 0x8000_0001, 0x0000_0000, 0x0000_0000),
        (0x7FFF_FFFF, 0x7FFF_FFFF, 0x7FFF_FFFF, 0x7FFF_FFFF),
        (0x0000_0005, 0xFFFF_FFFE, 0x0000_0003, 0x0000_0000),
    ];

    fn sums<K: Kind>(rt: &impl Abort, table: &[Sum]) -> Result<(), Fail> {
        for row in table {
            let (a, b, sum, rest) = *row;
            if !K::is_number(a) || !K::is_number(b) {
                return Err(Fail::new("no number"));
            }
            let (s, r) = K::add(a, b);
            assert!(rt; s == sum && r == rest);
        }
        Ok(())
    }

    #[test]
    fn sums_in_binary64(rt: HostRuntime) -> Result<(), Fail> {
        sums::<Binary64>(&rt, &SUMS_64)
    }

    #[test]
    fn sums_in_binary32(rt: HostRuntime) -> Result<(), Fail> {
        sums::<Binary32>(&rt, &SUMS_32)
    }

    #[test]
    fn sums_of_counts(rt: HostRuntime) -> Result<(), Fail> {
        sums::<Count>(&rt, &SUMS_OF_COUNTS)
    }

    #[test]
    fn what_is_a_number(rt: HostRuntime) {
        assert!(rt; Binary64::is_number(0x7FEF_FFFF_FFFF_FFFF));
        assert!(rt; !Binary64::is_number(0x7FF0_0000_0000_0000));
        assert!(rt; !Binary64::is_number(0xFFF8_0000_0000_0000));
        assert!(rt; Binary32::is_number(0xFF7F_FFFF));
        assert!(rt; !Binary32::is_number(0x7F80_0000));
        assert!(rt; !Binary32::is_number(0x1_3F80_0000));
        assert!(rt; Count::is_number(0x8000_0001));
        assert!(rt; !Count::is_number(0x8000_0000));
        assert!(rt; !Count::is_number(0x1_0000_0000));
    }
}
