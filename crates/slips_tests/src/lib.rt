//! Slips by example: what they read as they fill, and what they refuse.
#![tactic(auto)]

#[cfg(test)]
mod tests {
    use accounts::account::Account;
    use accounts::readings::Entry;
    use accounts::readings::Entry::{Post, Withdraw};
    use binary::format::Binary64;
    use kinds::count::Count;
    use kinds::kind::Kind;
    use refusals::Refusal;
    use slips::slips::Slips;
    use std::process::Abort;
    use std::test::Fail;

    // An entry, and what the account reads after it.
    type Turn = (Entry, Result<u64, Refusal>);

    // Cubic metres of all sizes, as many as there is room for; most are taken back in another order.
    const METRES: [Turn; 63] = [
        (Post(0x4340_0000_0000_0000), Ok(0x4340_0000_0000_0000)),
        (Post(0x3FF0_0000_0000_0000), Ok(0x4340_0000_0000_0000)),
        (Post(1), Ok(0x4340_0000_0000_0001)),
        (Withdraw(0x4340_0000_0000_0000), Ok(0x3FF0_0000_0000_0000)),
        (Withdraw(0x3C90_0000_0000_0000), Ok(0x3FF0_0000_0000_0000)),
        (Post(0x7E37_E43C_8800_759C), Ok(0x7E37_E43C_8800_759C)),
        (Post(0x3FB9_9999_9999_999A), Ok(0x7E37_E43C_8800_759C)),
        (Post(0xFE37_E43C_8800_759C), Ok(0x3FF1_9999_9999_9999)),
        (Withdraw(0x8000_0000_0000_0000), Ok(0x3FF1_9999_9999_9999)),
        (Post(0x0010_0000_0000_0000), Ok(0x3FF1_9999_9999_9999)),
        (Post(0xBFF0_0000_0000_0000), Ok(0x3FB9_9999_9999_9996)),
        (Post(0x7FEF_FFFF_FFFF_FFFF), Ok(0x7FEF_FFFF_FFFF_FFFF)),
        (Post(0x7C80_0000_0000_0000), Ok(0x7FEF_FFFF_FFFF_FFFF)),
        (Withdraw(0x7FEF_FFFF_FFFF_FFFF), Ok(0x7C80_0000_0000_0000)),
        (Withdraw(0x7C80_0000_0000_0000), Ok(0x3FB9_9999_9999_9996)),
        (Post(0xC246_769F_9CEC_DEEE), Ok(0xC246_769F_9CEC_D221)),
        (Post(0x4334_4C62_FCD4_0B9D), Ok(0x4334_4C36_0F94_D1C3)),
        (Post(0xFD0C_7379_D1C5_554E), Ok(0xFD0C_7379_D1C5_554E)),
        (Post(0x5DC6_AAF1_DC80_372E), Ok(0xFD0C_7379_D1C5_554E)),
        (Post(0xC241_56B2_064C_DC2D), Ok(0xFD0C_7379_D1C5_554E)),
        (Post(0xC062_CB03_1057_0E51), Ok(0xFD0C_7379_D1C5_554E)),
        (Post(0x8014_395E_96C0_E921), Ok(0xFD0C_7379_D1C5_554E)),
        (Post(0x3840_7902_D0A0_B94E), Ok(0xFD0C_7379_D1C5_554E)),
        (Withdraw(0x7F83_6B8C_E442_6AD3), Ok(0xFF83_6B8C_E442_8746)),
        (Post(0xBE85_BDBA_6D48_3BB2), Ok(0xFF83_6B8C_E442_8746)),
        (Withdraw(0xC33B_0386_5D3C_4B29), Ok(0xFF83_6B8C_E442_8746)),
        (Post(0x4243_B2FB_006B_8C4F), Ok(0xFF83_6B8C_E442_8746)),
        (Post(0x4240_E54C_383B_360B), Ok(0xFF83_6B8C_E442_8746)),
        (Withdraw(0x5DC3_ECF9_AC3B_26AC), Ok(0xFF83_6B8C_E442_8746)),
        (Post(0xFF8F_0616_CE6E_3826), Ok(0xFF99_38D1_D958_5FB6)),
        (Post(0xBE84_C73B_280B_7FAD), Ok(0xFF99_38D1_D958_5FB6)),
        (Post(0xB84D_F86C_F65B_1B94), Ok(0xFF99_38D1_D958_5FB6)),
        (Post(0xDDC2_605E_F474_12B2), Ok(0xFF99_38D1_D958_5FB6)),
        (Withdraw(0x44C7_1F0E_EBD3_B059), Ok(0xFF99_38D1_D958_5FB6)),
        (Withdraw(0x3E82_7C38_4618_90D3), Ok(0xFF99_38D1_D958_5FB6)),
        (Withdraw(0x12C0_D96B_208C_2512), Ok(0xFF99_38D1_D958_5FB6)),
        (Post(0x8010_E605_8297_B0AE), Ok(0xFF99_38D1_D958_5FB6)),
        (Withdraw(0x92C4_0381_8FCF_6FDF), Ok(0xFF99_38D1_D958_5FB6)),
        (Withdraw(0x4067_E1E8_AC6D_8BD7), Ok(0xFF99_38D1_D958_5FB6)),
        (Post(0x5DC3_ECF9_AC3B_26AC), Ok(0xFF99_38D1_D958_5FB6)),
        (Withdraw(0x4240_E54C_383B_360B), Ok(0xFF99_38D1_D958_5FB6)),
        (Withdraw(0xC246_769F_9CEC_DEEE), Ok(0xFF99_38D1_D958_5FB6)),
        (Withdraw(0xBE84_C73B_280B_7FAD), Ok(0xFF99_38D1_D958_5FB6)),
        (Withdraw(0x3840_7902_D0A0_B94E), Ok(0xFF99_38D1_D958_5FB6)),
        (Post(0x3E82_7C38_4618_90D3), Ok(0xFF99_38D1_D958_5FB6)),
        (Withdraw(0x4243_B2FB_006B_8C4F), Ok(0xFF99_38D1_D958_5FB6)),
        (Post(0x44C7_1F0E_EBD3_B059), Ok(0xFF99_38D1_D958_5FB6)),
        (Withdraw(0x8014_395E_96C0_E921), Ok(0xFF99_38D1_D958_5FB6)),
        (Withdraw(0xFD0C_7379_D1C5_554E), Ok(0xFF99_38D1_D958_517C)),
        (Withdraw(0xFF8F_0616_CE6E_3826), Ok(0xFF83_6B8C_E442_6AD3)),
        (Withdraw(0xBE85_BDBA_6D48_3BB2), Ok(0xFF83_6B8C_E442_6AD3)),
        (Withdraw(0x8010_E605_8297_B0AE), Ok(0xFF83_6B8C_E442_6AD3)),
        (Withdraw(0xC062_CB03_1057_0E51), Ok(0xFF83_6B8C_E442_6AD3)),
        (Post(0x7F83_6B8C_E442_6AD3), Ok(0x5DA1_2A4B_A030_91F0)),
        (Withdraw(0x5DC6_AAF1_DC80_372E), Ok(0xDDC2_605E_F474_12B2)),
        (Withdraw(0xC241_56B2_064C_DC2D), Ok(0xDDC2_605E_F474_12B2)),
        (Post(0x4067_E1E8_AC6D_8BD7), Ok(0xDDC2_605E_F474_12B2)),
        (Withdraw(0xDDC2_605E_F474_12B2), Ok(0x4347_A7F4_AD08_2B63)),
        (Post(0x12C0_D96B_208C_2512), Ok(0x4347_A7F4_AD08_2B63)),
        (Withdraw(0x4334_4C62_FCD4_0B9D), Ok(0x433B_0386_5D3C_4B29)),
        (Withdraw(0xB84D_F86C_F65B_1B94), Ok(0x433B_0386_5D3C_4B29)),
        (Post(0x92C4_0381_8FCF_6FDF), Ok(0x433B_0386_5D3C_4B29)),
        (Post(0xC33B_0386_5D3C_4B29), Ok(0x3FB9_9999_9999_9996)),
    ];

    // Litres that leave the range and come back.
    const LITRES: [Turn; 6] = [
        (Post(0x7FFF_FFFF), Ok(0x7FFF_FFFF)),
        (Post(1), Err(Refusal::AboveRange)),
        (Withdraw(0x7FFF_FFFF), Ok(1)),
        (Withdraw(0x7FFF_FFFF), Ok(0x8000_0002)),
        (Withdraw(2), Err(Refusal::BelowRange)),
        (Post(1), Ok(0x8000_0001)),
    ];

    // The `enter` of `accounts` tells no answer.
    fn enter<K: Kind>(slips: &mut Slips<K>, entry: Entry) -> Result<(), Refusal> {
        match entry {
            Post(p) => slips.post(p),
            Withdraw(p) => slips.withdraw(p),
        }
    }

    // Each entry is granted, and a reading follows. A pattern that is no number is refused before each turn, and counts for nothing.
    fn turns<K: Kind>(
        rt: &impl Abort,
        slips: &mut Slips<K>,
        turns: &[Turn],
        none: u64,
    ) -> Result<(), Fail> {
        for &(entry, reading) in turns {
            assert_eq!(rt; slips.post(none), Err(Refusal::NotANumber));
            assert_eq!(rt; enter(slips, entry), Ok(()));
            assert_eq!(rt; slips.read(), reading);
        }
        assert_eq!(rt; slips.entries() as usize, turns.len());
        Ok(())
    }

    #[test]
    fn full_slips(rt: HostRuntime) -> Result<(), Fail> {
        let mut slips = Slips::<Binary64>::open(());
        turns(&rt, &mut slips, &METRES, 0x7FF8_0000_0000_0000)?;
        assert_eq!(rt; slips.post(1), Err(Refusal::Full));
        assert_eq!(rt; slips.withdraw(1), Err(Refusal::Full));
        assert_eq!(rt; slips.limit(), 63);
        Ok(())
    }

    #[test]
    fn readings_out_of_range(rt: HostRuntime) -> Result<(), Fail> {
        turns(&rt, &mut Slips::<Count>::open(()), &LITRES, 0x8000_0000)
    }
}
