// The rules run on the worked numbers and at their limits.
use energy::Kwh;
use rationing::{ChosenRule, RationingRule, RegisterRule, RunningRule, exact_share};
use std::process::Abort;
use std::test::Fail;

const REGISTER: ChosenRule = ChosenRule::Register(RegisterRule);

const RUNNING: ChosenRule = ChosenRule::Running(RunningRule);

/// The rule answers these four claims with these four awards.
fn answers(rt: &impl Abort, rule: ChosenRule, amount: u64, claims: [u64; 4], awards: [u64; 4]) {
    let [a, b, c, d] = claims;
    let mut out = [Kwh(9); 4];
    assert!(rt;
        rule.ration(Kwh(amount), &[Kwh(a), Kwh(b), Kwh(c), Kwh(d)], &mut out)
            .is_ok()
    );
    let [w, x, y, z] = awards;
    assert_eq!(rt; out, [Kwh(w), Kwh(x), Kwh(y), Kwh(z)]);
}

#[test]
fn worked_numbers(rt: HostRuntime) {
    answers(&rt, REGISTER, 2, [1, 1, 3, 3], [1, 1, 0, 0]);
    answers(&rt, RUNNING, 2, [1, 1, 3, 3], [0, 0, 1, 1]);
    answers(&rt, REGISTER, 3, [1, 1, 3, 3], [1, 0, 1, 1]);
    answers(&rt, RUNNING, 3, [1, 1, 3, 3], [0, 0, 1, 2]);
    answers(&rt, REGISTER, 500, [500, 1000, 0, 0], [167, 333, 0, 0]);
    answers(&rt, REGISTER, 500, [0, 501, 0, 0], [0, 500, 0, 0]);
    answers(&rt, RUNNING, 500, [0, 501, 0, 0], [0, 500, 0, 0]);
}

#[test]
fn an_amount_that_covers_gives_each_its_claim(rt: HostRuntime) {
    answers(&rt, REGISTER, 8, [1, 1, 3, 3], [1, 1, 3, 3]);
    answers(&rt, RUNNING, u64::MAX, [1, 1, 3, 3], [1, 1, 3, 3]);
    answers(&rt, RUNNING, 0, [0, 0, 0, 0], [0, 0, 0, 0]);
    answers(&rt, REGISTER, 0, [1, 1, 3, 3], [0, 0, 0, 0]);
}

/// The rule refuses and leaves what stood in the list of awards.
fn refuses(rt: &impl Abort, rule: ChosenRule, claims: &[Kwh], out: &mut [Kwh]) {
    assert!(rt; rule.ration(Kwh(5), claims, out).is_err());
    for award in out {
        assert_eq!(rt; *award, Kwh(9));
    }
}

#[test]
fn limits(rt: HostRuntime) {
    for rule in [REGISTER, RUNNING] {
        assert!(rt; rule.ration(Kwh(5), &[], &mut []).is_ok());
        assert!(rt;
            rule.ration(Kwh(5), &[Kwh(1); 16], &mut [Kwh(9); 16])
                .is_ok()
        );
        refuses(&rt, rule, &[Kwh(1); 17], &mut [Kwh(9); 17]);
        refuses(&rt, rule, &[Kwh(1); 3], &mut [Kwh(9); 4]);
        refuses(&rt, rule, &[Kwh(1); 4], &mut [Kwh(9); 3]);
        assert!(rt;
            rule.ration(Kwh(5), &[Kwh(159_999_984); 16], &mut [Kwh(9); 16])
                .is_ok()
        );
        refuses(&rt, rule, &[Kwh(2_559_999_744), Kwh(1)], &mut [Kwh(9); 2]);
        refuses(&rt, rule, &[Kwh(u64::MAX), Kwh(2)], &mut [Kwh(9); 2]);
    }
}

#[test]
fn exact_shares(rt: HostRuntime) -> Result<(), Fail> {
    let heap = rt.alloc();
    assert_eq!(rt;
        exact_share(Kwh(2), Kwh(3), Kwh(8))
            .to_string(heap)?
            .as_str(),
        "3/4"
    );
    assert_eq!(rt;
        exact_share(Kwh(500), Kwh(500), Kwh(1500))
            .to_string(heap)?
            .as_str(),
        "166 2/3"
    );
    assert_eq!(rt;
        exact_share(Kwh(500), Kwh(501), Kwh(501))
            .to_string(heap)?
            .as_str(),
        "500"
    );
    assert_eq!(rt;
        exact_share(Kwh(9), Kwh(3), Kwh(8))
            .to_string(heap)?
            .as_str(),
        "3"
    );
    assert_eq!(rt;
        exact_share(Kwh(0), Kwh(0), Kwh(0))
            .to_string(heap)?
            .as_str(),
        "0"
    );
    assert_eq!(rt;
        exact_share(Kwh(u64::MAX - 1), Kwh(u64::MAX), Kwh(u64::MAX))
            .to_string(heap)?
            .as_str(),
        "18446744073709551614"
    );
    Ok(())
}
