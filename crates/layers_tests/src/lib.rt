//! Layers by example: what waits is neither lost nor counted twice, a quota cuts where it should, and piles read alike.
#![tactic(auto)]

#[cfg(test)]
mod tests {
    use accounts::account::Account;
    use accounts::readings::{Entry, readings};
    use accounts::register_account::RegisterAccount;
    use binary::format::{Binary32, Binary64};
    use kinds::count::Count;
    use kinds::kind::Kind;
    use layers::quota::{Quota, QuotaSetup};
    use layers::staged::Staged;
    use refusals::Refusal;
    use slips::slips::Slips;
    use std::process::Abort;
    use std::test::Fail;

    // After so many entries, what is read.
    type Stop = (u32, Result<u64, Refusal>);

    // Cubic metres of all sizes. At each stop the sum is halfway between two numbers but for the smallest entry, and without any one entry it reads something else.
    const METRES: [Entry; 33] = [
        Entry::Post(0x4340_0000_0000_0000),
        Entry::Post(0x0000_0000_0000_0001),
        Entry::Withdraw(0x40C4_7080_0000_0000),
        Entry::Post(0x7E37_E43C_8800_759C),
        Entry::Post(0xC1C8_87DB_7780_0000),
        Entry::Withdraw(0xC0E4_A320_0000_0000),
        Entry::Post(0x41C3_676E_CC80_0000),
        Entry::Withdraw(0x41B5_C181_9900_0000),
        Entry::Withdraw(0x4090_2800_0000_0000),
        Entry::Withdraw(0xC1FD_7059_60B0_0000),
        Entry::Withdraw(0x7E37_E43C_8800_759C),
        Entry::Post(0x41FF_1DF8_B2F0_0000),
        Entry::Post(0x4204_BC59_7988_0000),
        Entry::Withdraw(0x40D2_C340_0000_0000),
        Entry::Withdraw(0x405A_0000_0000_0000),
        Entry::Withdraw(0xC166_8702_8000_0000),
        Entry::Post(0xC0AD_C800_0000_0000),
        Entry::Withdraw(0xC04B_8000_0000_0000),
        Entry::Withdraw(0xC180_48F3_4000_0000),
        Entry::Withdraw(0x7FEF_FFFF_FFFF_FFFF),
        Entry::Post(0x41D3_D505_2800_0000),
        Entry::Post(0xFFEF_FFFF_FFFF_FFFF),
        Entry::Withdraw(0x40B4_0D00_0000_0000),
        Entry::Post(0xC162_E17C_0000_0000),
        Entry::Withdraw(0xC179_A241_6000_0000),
        Entry::Post(0x40C2_4880_0000_0000),
        Entry::Withdraw(0x4169_CF49_4000_0000),
        Entry::Post(0x7FEF_FFFF_FFFF_FFFF),
        Entry::Post(0x4127_42BA_0000_0000),
        Entry::Withdraw(0xFFEF_FFFF_FFFF_FFFF),
        Entry::Withdraw(0x4181_9154_D800_0000),
        Entry::Withdraw(0x41F1_DC2A_1710_0000),
        Entry::Post(0xC028_0000_0000_0000),
    ];

    const METRES_READINGS: [Stop; 5] = [
        (15, Ok(0x4340_0003_2037_111B)),
        (16, Ok(0x4340_0003_2091_2D25)),
        (17, Ok(0x4340_0003_2091_25B3)),
        (32, Ok(0x4340_0002_B965_8133)),
        (33, Ok(0x4340_0002_B965_812D)),
    ];

    // Litres: the 16th entry leaves the range above and the 17th comes back; the 33rd comes back from below.
    const LITRES: [Entry; 33] = [
        Entry::Post(0xFF2D_CC09),
        Entry::Withdraw(0x0D29_127F),
        Entry::Post(0x08D6_82B1),
        Entry::Withdraw(0x19DD_F26A),
        Entry::Post(0x53F5_693A),
        Entry::Post(0xD143_4D8D),
        Entry::Post(0x222D_41E0),
        Entry::Withdraw(0x8D56_D279),
        Entry::Post(0x8C10_7CBE),
        Entry::Post(0x834A_CEA7),
        Entry::Post(0xEA0C_FBA3),
        Entry::Withdraw(0x9DB1_6FDE),
        Entry::Post(0xB90F_A780),
        Entry::Post(0x7C83_4B59),
        Entry::Withdraw(0x144C_46B1),
        Entry::Post(0x74E2_F85F),
        Entry::Withdraw(0x49B7_1EF5),
        Entry::Withdraw(0x6F1B_4486),
        Entry::Withdraw(0xFE50_2427),
        Entry::Withdraw(0xF9B9_66C2),
        Entry::Withdraw(0x01FE_2DCC),
        Entry::Withdraw(0x267A_3A8E),
        Entry::Post(0xA369_325C),
        Entry::Post(0xFCC7_EBF3),
        Entry::Withdraw(0xB295_F61C),
        Entry::Post(0x3DA9_4A36),
        Entry::Post(0xF9CC_50CD),
        Entry::Post(0xECDE_4394),
        Entry::Withdraw(0x55A8_0AE7),
        Entry::Post(0x2106_947B),
        Entry::Post(0x3C08_E9CA),
        Entry::Post(0x90D2_97B3),
        Entry::Withdraw(0xD57F_73FC),
    ];

    const LITRES_READINGS: [Stop; 5] = [
        (15, Ok(0x1809_F351)),
        (16, Err(Refusal::AboveRange)),
        (17, Ok(0x4335_CCBB)),
        (32, Err(Refusal::BelowRange)),
        (33, Ok(0x8842_32D1)),
    ];

    // Where a quota over slips is full.
    const QUOTAS: [(u32, u32); 6] = [(0, 0), (8, 8), (17, 17), (63, 63), (64, 63), (100, 63)];

    const UNITS: [Entry; 63] = [Entry::Post(1); 63];

    // No number of any kind.
    const NONE: u64 = u64::MAX;

    // The `enter` of `accounts` tells no answer.
    fn enter<K: Kind, A: Account<K>>(account: &mut A, entry: Entry) -> Result<(), Refusal> {
        match entry {
            Entry::Post(p) => account.post(p),
            Entry::Withdraw(p) => account.withdraw(p),
        }
    }

    // Goes on to a stop, with a refused entry before each granted one, and reads there twice.
    fn go<K: Kind, A: Account<K>>(
        rt: &impl Abort,
        account: &mut A,
        entries: &[Entry],
        stop: Stop,
    ) -> Result<(), Fail> {
        let (count, reading) = stop;
        let from = account.entries() as usize;
        let to = count as usize;
        assert!(rt; from <= to && to <= entries.len());
        for &entry in &entries[from..to] {
            assert_eq!(rt; account.post(NONE), Err(Refusal::NotANumber));
            assert_eq!(rt; enter::<K, A>(account, entry), Ok(()));
        }
        assert_eq!(rt; account.entries(), count);
        assert_eq!(rt; account.read(), reading);
        assert_eq!(rt; account.read(), reading);
        assert_eq!(rt; account.entries(), count);
        Ok(())
    }

    // One account reads at every stop, and a fresh one at each stop alone.
    fn stops<K: Kind, A: Account<K, Setup = ()> + Drop>(
        rt: &impl Abort,
        entries: &[Entry],
        stops: &[Stop],
    ) -> Result<(), Fail> {
        let mut account = A::open(());
        for &stop in stops {
            go::<K, A>(rt, &mut account, entries, stop)?;
            go::<K, A>(rt, &mut A::open(()), entries, stop)?;
        }
        Ok(())
    }

    fn staged<K: Kind>(rt: &impl Abort, entries: &[Entry], all: &[Stop]) -> Result<(), Fail> {
        stops::<K, Staged<K, RegisterAccount>>(rt, entries, all)?;
        stops::<K, Staged<K, Slips<K>>>(rt, entries, all)
    }

    #[test]
    fn staged_entries(rt: HostRuntime) -> Result<(), Fail> {
        staged::<Binary64>(&rt, &METRES, &METRES_READINGS)?;
        staged::<Count>(&rt, &LITRES, &LITRES_READINGS)
    }

    // The entries in another order: those before the cut backwards.
    fn turned(rt: &impl Abort, entries: &[Entry; 33], cut: usize) -> [Entry; 33] {
        assert!(rt; cut <= 33);
        let mut turned = *entries;
        turned[..cut].reverse();
        turned
    }

    // The lowest quota cuts the entries at each stop; those before it come in two orders.
    fn piles<
        K: Kind,
        A: Account<K, Setup = QuotaSetup<QuotaSetup<()>>> + Drop,
        B: Account<K, Setup = QuotaSetup<()>> + Drop,
    >(rt: &impl Abort, entries: &[Entry; 33], stops: &[Stop]) -> Result<(), Fail> {
        for &(most, reading) in stops {
            let second = turned(rt, entries, most as usize);
            let one = QuotaSetup {
                most: 64,
                below: QuotaSetup { most, below: () },
            };
            let other = QuotaSetup { most, below: () };
            let (p, q) = readings::<K, A, B>(one, entries, other, &second);
            assert!(rt; p == reading && q == reading);
        }
        Ok(())
    }

    fn all_piles<K: Kind>(
        rt: &impl Abort,
        entries: &[Entry; 33],
        all: &[Stop],
    ) -> Result<(), Fail> {
        piles::<
            K,
            Quota<K, Staged<K, Quota<K, RegisterAccount>>>,
            Staged<K, Quota<K, Staged<K, Slips<K>>>>,
        >(rt, entries, all)?;
        piles::<
            K,
            Quota<K, Quota<K, Staged<K, Slips<K>>>>,
            Staged<K, Staged<K, Quota<K, RegisterAccount>>>,
        >(rt, entries, all)
    }

    #[test]
    fn piles_read_alike(rt: HostRuntime) -> Result<(), Fail> {
        all_piles::<Binary64>(&rt, &METRES, &METRES_READINGS)?;
        all_piles::<Count>(&rt, &LITRES, &LITRES_READINGS)
    }

    // One unit to an entry: a full account reads how many it has.
    fn fills<K: Kind, A: Account<K> + Drop>(
        rt: &impl Abort,
        setup: A::Setup,
        limit: u32,
    ) -> Result<(), Fail> {
        let mut account = A::open(setup);
        go::<K, A>(rt, &mut account, &UNITS, (limit, Ok(limit as u64)))?;
        assert_eq!(rt; account.post(1), Err(Refusal::Full));
        assert_eq!(rt; account.withdraw(1), Err(Refusal::Full));
        assert!(rt; account.entries() == limit && account.limit() == limit);
        Ok(())
    }

    fn quotas<K: Kind>(rt: &impl Abort) -> Result<(), Fail> {
        for &(most, limit) in &QUOTAS {
            fills::<K, Quota<K, Slips<K>>>(rt, QuotaSetup { most, below: () }, limit)?;
            fills::<K, Staged<K, Quota<K, Slips<K>>>>(rt, QuotaSetup { most, below: () }, limit)?;
            fills::<K, Quota<K, Staged<K, Slips<K>>>>(rt, QuotaSetup { most, below: () }, limit)?;
        }
        Ok(())
    }

    #[test]
    fn full_quotas(rt: HostRuntime) -> Result<(), Fail> {
        quotas::<Count>(&rt)?;
        quotas::<Binary32>(&rt)?;
        quotas::<Binary64>(&rt)
    }

    // The pattern 1 is a unit of both kinds, and a register account adds units of any.
    #[test]
    fn a_quota_of_another_kind(rt: HostRuntime) -> Result<(), Fail> {
        let rt = &rt;
        let mut metres = Quota::<Binary64, RegisterAccount>::open(QuotaSetup {
            most: 2,
            below: (),
        });
        assert_eq!(rt; metres.post(1), Ok(()));
        let mut litres = metres.of_kind::<Count>();
        assert_eq!(rt; litres.post(1), Ok(()));
        assert_eq!(rt; litres.read(), Ok(2));
        assert_eq!(rt; litres.post(1), Err(Refusal::Full));
        Ok(())
    }
}
