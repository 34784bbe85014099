//! Fleet totals by example: what registers add up to, and which are refused.
#![tactic(auto)]

#[cfg(test)]
mod tests {
    use accounts::fleet::fleet_total;
    use binary::format::Binary64;
    use kinds::count::Count;
    use kinds::kind::Kind;
    use refusals::Refusal;
    use register::{Register, Scaled};
    use std::test::Fail;

    // The register of so many units, or of so many below 0.
    fn register(negative: bool, magnitude: u64) -> Register {
        let mut r = Register::zero();
        r.add_scaled(Scaled {
            negative,
            magnitude,
            shift: 0,
        });
        r
    }

    // The register of 2^2131, or of its opposite.
    fn edge(negative: bool) -> Register {
        let mut r = Register::zero();
        r.add_scaled(Scaled {
            negative,
            magnitude: 0x10_0000,
            shift: 2111,
        });
        r
    }

    // The register one unit nearer to 0 than the edge.
    fn inside(negative: bool) -> Register {
        let mut r = edge(negative);
        r.add(&register(!negative, 1));
        r
    }

    #[test]
    fn values_add_up(rt: HostRuntime) -> Result<(), Fail> {
        let most = register(false, 0x7FFF_FFFF);
        assert_eq!(rt; fleet_total::<Count>(&[]), Ok(0));
        assert_eq!(rt; fleet_total::<Count>(&[most]), Ok(0x7FFF_FFFF));
        assert_eq!(rt;
            fleet_total::<Count>(&[most, most]),
            Err(Refusal::AboveRange)
        );
        let fleet = [most, register(true, 0x7FFF_FFFF), register(true, 1)];
        assert_eq!(rt; fleet_total::<Count>(&fleet), Ok(0xFFFF_FFFF));
        assert_eq!(rt; fleet_total::<Binary64>(&fleet), Ok(0x8000_0000_0000_0001));
        Ok(())
    }

    #[test]
    fn the_first_beyond_reach(rt: HostRuntime) -> Result<(), Fail> {
        let one = register(false, 1);
        assert_eq!(rt;
            fleet_total::<Binary64>(&[one, edge(false), edge(true)]),
            Err(Refusal::RegisterTooLarge(1))
        );
        assert_eq!(rt;
            fleet_total::<Binary64>(&[edge(true), one]),
            Err(Refusal::RegisterTooLarge(0))
        );
        assert_eq!(rt;
            fleet_total::<Binary64>(&[one, inside(false)]),
            Err(Refusal::AboveRange)
        );
        assert_eq!(rt;
            fleet_total::<Binary64>(&[one, inside(true)]),
            Err(Refusal::BelowRange)
        );
        assert_eq!(rt;
            fleet_total::<Binary64>(&[inside(true), one, inside(false)]),
            Ok(1)
        );
        Ok(())
    }

    // As many as a fleet may have add up without wrapping; one more is too many, whatever it holds.
    #[test]
    fn the_largest_fleet(rt: HostRuntime) -> Result<(), Fail> {
        assert_eq!(rt;
            fleet_total::<Binary64>(&[inside(false); 1024]),
            Err(Refusal::AboveRange)
        );
        assert_eq!(rt;
            fleet_total::<Binary64>(&[inside(true); 1024]),
            Err(Refusal::BelowRange)
        );
        assert_eq!(rt;
            fleet_total::<Binary64>(&[edge(false); 1025]),
            Err(Refusal::WrongCount)
        );
        Ok(())
    }
}
