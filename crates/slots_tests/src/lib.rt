//! Plans, passes and settles by example.
#![tactic(auto)]

#[cfg(test)]
mod tests {
    use binary::format::Binary64;
    use kinds::count::Count;
    use kinds::kind::Kind;
    use plans::reads::read_plan;
    use plans::writes::write_halving;
    use refusals::Refusal;
    use settle::budget::Settings;
    use settle::settle::settle;
    use settle::settled::{Settled, Teller};
    use slots::pass::pass;
    use std::process::Abort;

    // A pass leaves these slots, nothing in their part of the column, and the rest of it as it was.
    fn leaves<K: Kind>(rt: &impl Abort, slots: &mut [u64], plan: &[u8], after: &[u64]) {
        let mut column = [9; 8];
        assert!(rt; pass::<K>(slots, &mut column, plan) == Ok(()));
        assert!(rt; *slots == *after);
        for (i, &word) in column.iter().enumerate() {
            assert!(rt; word == if i < after.len() { 0 } else { 9 });
        }
    }

    #[test]
    fn what_remains_stays_by_its_bracket(rt: HostRuntime) {
        let mut counts = [0, 0x7FFF_FFFF, 1, 5];
        leaves::<Count>(&rt, &mut counts, b"((..).)", &[0x7FFF_FFFF, 0, 1, 5]);
        leaves::<Count>(&rt, &mut counts, b"(.(..))", &[0x7FFF_FFFF, 6, 0, 0]);
        let mut metres = [0, 0x4340_0000_0000_0000, 0x3FF0_0000_0000_0000, 1];
        leaves::<Binary64>(
            &rt,
            &mut metres,
            b"((..).)",
            &[0x4340_0000_0000_0000, 0, 0x3FF0_0000_0000_0000, 1],
        );
        leaves::<Binary64>(
            &rt,
            &mut metres,
            b"((..).)",
            &[0x4340_0000_0000_0000, 0x3FF0_0000_0000_0000, 0, 1],
        );
        let mut two = [0x7FFF_FFFF, 0x7FFF_FFFF];
        leaves::<Count>(&rt, &mut two, b".", &[0x7FFF_FFFF, 0x7FFF_FFFF]);
    }

    #[test]
    fn questions_in_their_order(rt: HostRuntime) {
        let mut column = [9; 4];
        let mut few = [0x8000_0000];
        assert!(rt; pass::<Count>(&mut few, &mut column, b"x") == Err(Refusal::WrongCount));
        let mut slots = [1, 2, 0x8000_0000, 0x8000_0000, 5];
        assert!(rt;
            pass::<Count>(&mut slots, &mut column, b"x") == Err(Refusal::SlotNotANumber(2))
        );
        let mut five = [1, 2, 3, 4, 5];
        assert!(rt; pass::<Count>(&mut five, &mut column, b"x") == Err(Refusal::ColumnTooShort));
        let mut four = [1, 2, 3, 4];
        assert!(rt;
            pass::<Count>(&mut four, &mut column, b"((..).") == Err(Refusal::WrongPlanLength)
        );
        assert!(rt; pass::<Count>(&mut four, &mut column, b"((..)x)") == Err(Refusal::NotAPlan(5)));
        assert!(rt; four == [1, 2, 3, 4]);
        assert!(rt; column == [9; 4]);
    }

    // One byte of a plan with four dots exchanged for another, and how far the text begins a plan.
    const DAMAGED: [(&[u8], usize); 12] = [
        (b".(..)(..))", 0),
        (b"(...)(..))", 2),
        (b"()..)(..))", 1),
        (b"(((.)(..))", 4),
        (b"(().)(..))", 2),
        (b"((.()(..))", 4),
        (b"((...(..))", 4),
        (b"((..)...))", 5),
        (b"((..)((.))", 6),
        (b"((..)(.)))", 7),
        (b"((..)(...)", 8),
        (b"((..)(..)x", 9),
    ];

    #[test]
    fn texts_that_are_no_plans(rt: HostRuntime) {
        for &(text, place) in &DAMAGED {
            assert!(rt; read_plan(text, 4) == Err(Refusal::NotAPlan(place)));
        }
        assert!(rt; read_plan(b"((..)(..)", 4) == Err(Refusal::WrongPlanLength));
    }

    // As many slots as there may be, added by halves.
    #[test]
    fn the_longest_pass(rt: HostRuntime) {
        let mut slots = [1; 4096];
        let mut column = [9; 4096];
        let mut plan = [b'x'; 12283];
        write_halving(&mut plan, 4095);
        assert!(rt; pass::<Count>(&mut slots, &mut column, &plan) == Ok(()));
        assert!(rt; slots[0] == 4096);
        for &rest in &slots[1..] {
            assert!(rt; rest == 0);
        }
    }
    // A settle within a budget: what it reads, after how many passes, and what told it.
    fn settles<K: Kind>(
        rt: &impl Abort,
        slots: &mut [u64],
        budget: u8,
        outcome: Result<u64, Refusal>,
        passes: u8,
        by: Teller,
    ) {
        let mut column = [9; 4];
        let mut settings = Settings::new();
        assert!(rt; settings.set_budget(budget) == Ok(()));
        let answer = settle::<K>(slots, &mut column, b"((..).)", &settings);
        assert!(rt;
            answer
                == Ok(Settled {
                    outcome,
                    passes,
                    by
                })
        );
        assert!(rt; column == [0; 4]);
    }

    #[test]
    fn outcomes_of_slots(rt: HostRuntime) {
        // Half a step above an even number, and the smallest number more: no pass decides it.
        let mut tie = [0, 0x4340_0000_0000_0000, 0x3FF0_0000_0000_0000, 1];
        settles::<Binary64>(
            &rt,
            &mut tie,
            8,
            Ok(0x4340_0000_0000_0001),
            8,
            Teller::Register,
        );
        let mut settled = [7, 0, 0, 0];
        settles::<Count>(&rt, &mut settled, 0, Ok(7), 0, Teller::Test);
        let mut spread = [0, 3, 4, 5];
        settles::<Count>(&rt, &mut spread, 0, Ok(12), 0, Teller::Register);
        settles::<Count>(&rt, &mut spread, 8, Ok(12), 1, Teller::Test);
        let mut over = [0x7FFF_FFFF, 0x7FFF_FFFF, 1, 0];
        settles::<Count>(&rt, &mut over, 8, Err(Refusal::AboveRange), 0, Teller::Test);
    }

    #[test]
    fn budgets(rt: HostRuntime) {
        let mut settings = Settings::new();
        assert!(rt; settings.budget() == 8);
        assert!(rt; settings.set_budget(9) == Err(Refusal::BudgetTooLarge));
        assert!(rt; settings.budget() == 8);
    }

    // Litres.
    const COUNTS: [[u64; 6]; 6] = [
        [
            0x0000_0000,
            0x0000_0000,
            0x0000_0000,
            0x0000_0000,
            0x0000_0000,
            0x0000_0000,
        ],
        [
            0x0000_0001,
            0x0000_0002,
            0x0000_0003,
            0x0000_0004,
            0x0000_0005,
            0x0000_0006,
        ],
        [
            0x7FFF_FFFF,
            0x0000_0001,
            0x7FFF_FFFF,
            0x0000_0001,
            0x7FFF_FFFF,
            0x0000_0001,
        ],
        [
            0x8000_0001,
            0x7FFF_FFFF,
            0xFFFF_FFFF,
            0x0000_0001,
            0x7FFF_FFFF,
            0x8000_0001,
        ],
        [
            0x7FFF_FFFF,
            0x7FFF_FFFF,
            0x7FFF_FFFF,
            0x7FFF_FFFF,
            0x7FFF_FFFF,
            0x7FFF_FFFF,
        ],
        [
            0xFFFF_FFFB,
            0x0000_0007,
            0x8000_0001,
            0x8000_0001,
            0x7FFF_FFFF,
            0x0000_0003,
        ],
    ];

    // Cubic metres in binary64.
    const METRES: [[u64; 6]; 6] = [
        [
            0x3FF0_0000_0000_0000,
            0x4340_0000_0000_0000,
            0x3FF0_0000_0000_0000,
            0xC340_0000_0000_0000,
            0x3C30_0000_0000_0000,
            0x4008_0000_0000_0000,
        ],
        [
            0x0000_0000_0000_0000,
            0x4340_0000_0000_0000,
            0x3FF0_0000_0000_0000,
            0x0000_0000_0000_0001,
            0x8000_0000_0000_0001,
            0x0010_0000_0000_0000,
        ],
        [
            0x3FB9_9999_9999_999A,
            0x3FC9_9999_9999_999A,
            0x3FD3_3333_3333_3333,
            0xBFE3_3333_3333_3333,
            0x4341_C379_37E0_8000,
            0x3FF0_0000_0000_0000,
        ],
        [
            0x4108_6A00_0000_0000,
            0x3F74_7AE1_47AE_147B,
            0x3F74_7AE1_47AE_147B,
            0x3F74_7AE1_47AE_147B,
            0xBF74_7AE1_47AE_147B,
            0x3F74_7AE1_47AE_147B,
        ],
        [
            0x8000_0000_0000_0000,
            0x0000_0000_0000_0001,
            0x0000_0000_0000_0002,
            0x0000_0000_0000_0003,
            0x000F_FFFF_FFFF_FFFF,
            0x8010_0000_0000_0000,
        ],
        [
            0x7E37_E43C_8800_759C,
            0xFE37_E43C_8800_759C,
            0x01A5_6E1F_C2F8_F359,
            0x7AE5_8504_1B2C_477F,
            0x0000_0000_0000_0001,
            0xFAE5_8504_1B2C_477F,
        ],
    ];

    // Every plan of up to five dots, the number of its slots, and a hash of what it makes of all twelve sets of slots.
    const PLANS: [(&[u8], usize, u64); 23] = [
        (b".", 2, 0x6956_2174_49CF_E35F),
        (b"(..)", 3, 0x2AEF_D8F9_E749_B332),
        (b"(.(..))", 4, 0x81A6_4E02_2D1F_5EC9),
        (b"((..).)", 4, 0xB7D2_D07A_7689_420D),
        (b"(.(.(..)))", 5, 0xB221_ECA0_8568_43FF),
        (b"(.((..).))", 5, 0xCB87_1D76_E6C4_92AE),
        (b"((..)(..))", 5, 0xACF3_7277_C7AE_3348),
        (b"((.(..)).)", 5, 0x27D8_267C_E02B_9235),
        (b"(((..).).)", 5, 0x7F2D_C11D_31AD_0633),
        (b"(.(.(.(..))))", 6, 0x4277_377F_ED35_AD1B),
        (b"(.(.((..).)))", 6, 0x94CA_F4C2_F73F_7269),
        (b"(.((..)(..)))", 6, 0xA24F_3011_3903_9FAE),
        (b"(.((.(..)).))", 6, 0x8118_9225_41AA_F017),
        (b"(.(((..).).))", 6, 0x64DD_EC45_8859_CB06),
        (b"((..)(.(..)))", 6, 0x47F1_95E6_7A8F_5FEA),
        (b"((..)((..).))", 6, 0xB01E_0D5F_24AD_B298),
        (b"((.(..))(..))", 6, 0x5649_B05D_B61D_E531),
        (b"(((..).)(..))", 6, 0x0021_9BA1_A7FB_DB73),
        (b"((.(.(..))).)", 6, 0xAB4A_C497_86F4_80A3),
        (b"((.((..).)).)", 6, 0xD160_901F_D331_5F34),
        (b"(((..)(..)).)", 6, 0xD265_EB4F_7E19_C3F0),
        (b"(((.(..)).).)", 6, 0xB586_ECF7_9319_9A57),
        (b"((((..).).).)", 6, 0x0851_49BC_B6A4_879B),
    ];

    fn mixed(hash: u64, words: &[u64]) -> u64 {
        words
            .iter()
            .fold(hash, |h, &word| (h ^ word).wrapping_mul(0x100_0000_01B3))
    }

    fn passed<K: Kind>(rt: &impl Abort, slots: &mut [u64], plan: &[u8], hash: u64) -> u64 {
        let mut column = [0; 6];
        assert!(rt; pass::<K>(slots, &mut column, plan) == Ok(()));
        mixed(hash, slots)
    }

    #[test]
    fn every_plan_of_five_dots(rt: HostRuntime) {
        for &(plan, slots, expected) in &PLANS {
            let count = slots.min(6);
            let mut hash = 0xCBF2_9CE4_8422_2325;
            for set in &COUNTS {
                let mut numbers = *set;
                hash = passed::<Count>(&rt, &mut numbers[..count], plan, hash);
            }
            for set in &METRES {
                let mut numbers = *set;
                hash = passed::<Binary64>(&rt, &mut numbers[..count], plan, hash);
            }
            assert!(rt; hash == expected);
        }
    }

    // Brackets as deep as they can be: 4,094 open, and each closes behind one more dot.
    fn write_comb(text: &mut [u8]) {
        for (i, byte) in text.iter_mut().enumerate() {
            *byte = if i < 4094 {
                b'('
            } else if i == 4094 || i % 2 == 1 {
                b'.'
            } else {
                b')'
            };
        }
    }

    #[test]
    fn the_deepest_pass(rt: HostRuntime) {
        let mut slots = [1; 4096];
        let mut column = [9; 4096];
        let mut comb = [b'x'; 12283];
        write_comb(&mut comb);
        assert!(rt; pass::<Count>(&mut slots, &mut column, &comb) == Ok(()));
        assert!(rt; slots[0] == 4096);
    }
}
