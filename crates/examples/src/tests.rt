use crate::outsider::Twice;
use interference::ask::ask;
use interference::choice::Choice;
use interference::full::Full;
use interference::handler::Handler;
use interference::interrupt::Interrupt;
use interference::limited::Limited;
use interference::rival::Rival;
use std::test::Fail;

mod replayed;

const ABOVE: [Rival; 3] = [
    Rival {
        cost: 36,
        period: 207,
        finish: 110,
    },
    Rival {
        cost: 86,
        period: 178,
        finish: 141,
    },
    Rival {
        cost: 93,
        period: 525,
        finish: 195,
    },
];

// the fourth task of the example in the lowest place, region length 1
#[test]
fn sums_of_the_lowest_task(rt: HostRuntime) {
    assert_eq!(rt; ask(&Full, 2, 195, 62, 1, &ABOVE, &[]), Some(299));
    assert_eq!(rt; ask(&Limited, 2, 195, 62, 1, &ABOVE, &[]), Some(268));
}

#[test]
fn questions_outside_the_limits(rt: HostRuntime) {
    assert_eq!(rt; ask(&Full, 0, 195, 62, 1, &ABOVE, &[]), None);
    assert_eq!(rt; ask(&Full, 17, 195, 62, 1, &ABOVE, &[]), None);
    assert_eq!(rt; ask(&Full, 2, 61, 62, 1, &ABOVE, &[]), None);
    assert_eq!(rt; ask(&Full, 2, 65_536, 62, 1, &ABOVE, &[]), None);
    assert_eq!(rt; ask(&Full, 2, 195, 0, 1, &ABOVE, &[]), None);
    assert_eq!(rt; ask(&Full, 2, 195, 62, 0, &ABOVE, &[]), None);
    assert_eq!(rt;
        ask(
            &Full,
            2,
            195,
            62,
            1,
            &[Rival {
                cost: 8,
                period: 9,
                finish: 7,
            }],
            &[],
        ),
        None
    );
    assert_eq!(rt;
        ask(
            &Full,
            2,
            195,
            62,
            1,
            &[],
            &[Rival {
                cost: 0,
                period: 0,
                finish: 7,
            }],
        ),
        None
    );
}

#[test]
fn handlers_are_checked(rt: HostRuntime) {
    assert!(rt; Interrupt::check(0, 10).is_err());
    assert!(rt; Interrupt::check(11, 10).is_err());
    assert!(rt; Interrupt::check(1, 65_536).is_err());
    assert_eq!(rt;
        Interrupt::check(0, 0)
            .err()
            .map(|refusal| u8::from(refusal)),
        Some(3)
    );
}

// three ticks of the handler in a window of 8, and again under a second one
#[test]
fn layers_add_up(rt: HostRuntime) -> Result<(), Fail> {
    let third = Interrupt::check(3, 10)?;
    let fourth = Interrupt::check(4, 10)?;
    let rule = Handler {
        interrupt: fourth,
        below: Handler {
            interrupt: third,
            below: Full,
        },
    };
    assert_eq!(rt; ask(&rule, 1, 8, 5, 1, &[], &[]), Some(7));
    let either: Choice<Handler<Full>, Limited> = Choice::First(Handler {
        interrupt: third,
        below: Full,
    });
    assert_eq!(rt; ask(&either, 1, 8, 5, 1, &[], &[]), Some(3));
    let or: Choice<Handler<Full>, Limited> = Choice::Second(Limited);
    assert_eq!(rt; ask(&or, 1, 8, 5, 4, &[], &[]), Some(3));
    Ok(())
}

// twice the full sum, and two ticks of a handler on top
#[test]
fn sums_of_an_outsider(rt: HostRuntime) -> Result<(), Fail> {
    assert_eq!(rt; ask(&Twice, 2, 195, 62, 1, &ABOVE, &[]), Some(598));
    let rule = Handler {
        interrupt: Interrupt::check(1, 100)?,
        below: Twice,
    };
    assert_eq!(rt; ask(&rule, 2, 195, 62, 1, &ABOVE, &[]), Some(600));
    Ok(())
}
