use crate::script::Step;
use planner::replay::QuickCall;

// Each limit of an open table, on both sides; 4 is tested before 3.
pub const LIMITS: [(Step, &str); 30] = [
    (Step::Cores(0), "refused by 1; open on 1:"),
    (Step::Cores(17), "refused by 1; open on 1:"),
    (Step::Cores(1), "done; open on 1:"),
    (Step::Cores(16), "done; open on 16:"),
    (Step::Cores(4294967295), "refused by 1; open on 16:"),
    (Step::Strike(1), "refused by 4; open on 16:"),
    (Step::Enter(0, 10, 20), "refused by 3; open on 16:"),
    (Step::Enter(11, 10, 20), "refused by 3; open on 16:"),
    (Step::Enter(1, 21, 20), "refused by 3; open on 16:"),
    (Step::Enter(1, 10, 65536), "refused by 3; open on 16:"),
    (Step::Enter(1, 65536, 65536), "refused by 3; open on 16:"),
    (Step::Enter(1, 10, 20), "done; open on 16: 1/10/20"),
    (
        Step::Enter(10, 10, 20),
        "done; open on 16: 1/10/20 10/10/20",
    ),
    (
        Step::Enter(1, 20, 20),
        "done; open on 16: 1/10/20 10/10/20 1/20/20",
    ),
    (
        Step::Enter(65535, 65535, 65535),
        "done; open on 16: 1/10/20 10/10/20 1/20/20 65535/65535/65535",
    ),
    (
        Step::Strike(0),
        "refused by 4; open on 16: 1/10/20 10/10/20 1/20/20 65535/65535/65535",
    ),
    (
        Step::Strike(5),
        "refused by 4; open on 16: 1/10/20 10/10/20 1/20/20 65535/65535/65535",
    ),
    (
        Step::Amend(0, 5),
        "refused by 4; open on 16: 1/10/20 10/10/20 1/20/20 65535/65535/65535",
    ),
    (
        Step::Amend(5, 5),
        "refused by 4; open on 16: 1/10/20 10/10/20 1/20/20 65535/65535/65535",
    ),
    (
        Step::Amend(5, 0),
        "refused by 4; open on 16: 1/10/20 10/10/20 1/20/20 65535/65535/65535",
    ),
    (
        Step::Amend(1, 0),
        "refused by 3; open on 16: 1/10/20 10/10/20 1/20/20 65535/65535/65535",
    ),
    (
        Step::Amend(1, 11),
        "refused by 3; open on 16: 1/10/20 10/10/20 1/20/20 65535/65535/65535",
    ),
    (
        Step::Amend(1, 10),
        "done; open on 16: 10/10/20 10/10/20 1/20/20 65535/65535/65535",
    ),
    (
        Step::Amend(1, 1),
        "done; open on 16: 1/10/20 10/10/20 1/20/20 65535/65535/65535",
    ),
    (
        Step::Strike(2),
        "done; open on 16: 1/10/20 1/20/20 65535/65535/65535",
    ),
    (
        Step::Strike(4),
        "refused by 4; open on 16: 1/10/20 1/20/20 65535/65535/65535",
    ),
    (
        Step::Strike(1),
        "done; open on 16: 1/20/20 65535/65535/65535",
    ),
    (Step::Strike(1), "done; open on 16: 65535/65535/65535"),
    (Step::Strike(1), "done; open on 16:"),
    (Step::Strike(1), "refused by 4; open on 16:"),
];

// Orders and lengths: a length stays with its task, 4 is tested before 6, and each call that is carried out sets
// marks and bounds anew.
pub const ORDERS_AND_LENGTHS: [(Step, &str); 34] = [
    (Step::Cores(2), "done; open on 2:"),
    (Step::Enter(36, 110, 207), "done; open on 2: 36/110/207"),
    (
        Step::Enter(86, 141, 178),
        "done; open on 2: 36/110/207 86/141/178",
    ),
    (
        Step::Enter(93, 195, 525),
        "done; open on 2: 36/110/207 86/141/178 93/195/525",
    ),
    (
        Step::Enter(61, 195, 767),
        "done; open on 2: 36/110/207 86/141/178 93/195/525 61/195/767",
    ),
    (
        Step::Amend(4, 62),
        "done; open on 2: 36/110/207 86/141/178 93/195/525 62/195/767",
    ),
    (
        Step::FixFull,
        "done; fixed on 2: order 1 2 3 4; lengths 1 1 1 1; bounds 0 0 0 0",
    ),
    (
        Step::Order([1, 2, 3, 3]),
        "refused by 5; fixed on 2: order 1 2 3 4; lengths 1 1 1 1; bounds 0 0 0 0",
    ),
    (
        Step::Order([0, 1, 2, 3]),
        "refused by 5; fixed on 2: order 1 2 3 4; lengths 1 1 1 1; bounds 0 0 0 0",
    ),
    (
        Step::Order([2, 3, 4, 5]),
        "refused by 5; fixed on 2: order 1 2 3 4; lengths 1 1 1 1; bounds 0 0 0 0",
    ),
    (
        Step::Order([4294967295, 2, 3, 4]),
        "refused by 5; fixed on 2: order 1 2 3 4; lengths 1 1 1 1; bounds 0 0 0 0",
    ),
    (
        Step::Stretch(3, 58),
        "done; fixed on 2: order 1 2 3 4; lengths 1 1 58 1; bounds 0 0 0 0",
    ),
    (
        Step::Stretch(1, 2),
        "done; fixed on 2: order 1 2 3 4; lengths 2 1 58 1; bounds 0 0 0 0",
    ),
    (
        Step::Order([2, 1, 4, 3]),
        "done; fixed on 2: order 2 1 4 3; lengths 2 1 58 1; bounds 0 0 0 0",
    ),
    (
        Step::Order([3, 4, 1, 2]),
        "done; fixed on 2: order 3 4 1 2; lengths 2 1 58 1; bounds 0 0 0 0",
    ),
    (
        Step::Stretch(0, 1),
        "refused by 4; fixed on 2: order 3 4 1 2; lengths 2 1 58 1; bounds 0 0 0 0",
    ),
    (
        Step::Stretch(5, 1),
        "refused by 4; fixed on 2: order 3 4 1 2; lengths 2 1 58 1; bounds 0 0 0 0",
    ),
    (
        Step::Stretch(5, 0),
        "refused by 4; fixed on 2: order 3 4 1 2; lengths 2 1 58 1; bounds 0 0 0 0",
    ),
    (
        Step::Stretch(4, 0),
        "refused by 6; fixed on 2: order 3 4 1 2; lengths 2 1 58 1; bounds 0 0 0 0",
    ),
    (
        Step::Stretch(4, 63),
        "refused by 6; fixed on 2: order 3 4 1 2; lengths 2 1 58 1; bounds 0 0 0 0",
    ),
    (
        Step::Stretch(4, 62),
        "done; fixed on 2: order 3 4 1 2; lengths 2 1 58 62; bounds 0 0 0 0",
    ),
    (
        Step::Stretch(4, 1),
        "done; fixed on 2: order 3 4 1 2; lengths 2 1 58 1; bounds 0 0 0 0",
    ),
    (
        Step::Order([2, 1, 4, 3]),
        "done; fixed on 2: order 2 1 4 3; lengths 2 1 58 1; bounds 0 0 0 0",
    ),
    (
        Step::SeekLengths,
        "done; fixed on 2: order 2 1 4 3; lengths 1 1 58 1; bounds 0 0 0 0; passed",
    ),
    (
        Step::SeekBounds,
        "done; fixed on 2: order 2 1 4 3; lengths 1 1 58 1; bounds 93 86 185 152; passed; bounded",
    ),
    (
        Step::Order([2, 1, 4, 3]),
        "done; fixed on 2: order 2 1 4 3; lengths 1 1 58 1; bounds 0 0 0 0",
    ),
    (
        Step::SeekLengths,
        "done; fixed on 2: order 2 1 4 3; lengths 1 1 58 1; bounds 0 0 0 0; passed",
    ),
    (
        Step::SeekBounds,
        "done; fixed on 2: order 2 1 4 3; lengths 1 1 58 1; bounds 93 86 185 152; passed; bounded",
    ),
    (
        Step::Stretch(3, 58),
        "done; fixed on 2: order 2 1 4 3; lengths 1 1 58 1; bounds 0 0 0 0",
    ),
    (
        Step::SeekBounds,
        "done; fixed on 2: order 2 1 4 3; lengths 1 1 58 1; bounds 93 86 185 152; bounded",
    ),
    (
        Step::SeekLengths,
        "done; fixed on 2: order 2 1 4 3; lengths 1 1 58 1; bounds 0 0 0 0; passed",
    ),
    (
        Step::Reopen,
        "done; open on 2: 36/110/207 86/141/178 93/195/525 62/195/767",
    ),
    (
        Step::Amend(4, 61),
        "done; open on 2: 36/110/207 86/141/178 93/195/525 61/195/767",
    ),
    (
        Step::FixFull,
        "done; fixed on 2: order 1 2 3 4; lengths 1 1 1 1; bounds 0 0 0 0",
    ),
];

// Any rule: calls for the other kind of table, refusals, and the worked example with four tasks.
pub const ANY_RULE: [(Step, &str); 34] = [
    (Step::Cores(2), "done; open on 2:"),
    (Step::Enter(36, 110, 207), "done; open on 2: 36/110/207"),
    (
        Step::Enter(86, 141, 178),
        "done; open on 2: 36/110/207 86/141/178",
    ),
    (
        Step::Enter(93, 195, 525),
        "done; open on 2: 36/110/207 86/141/178 93/195/525",
    ),
    (
        Step::Enter(61, 195, 767),
        "done; open on 2: 36/110/207 86/141/178 93/195/525 61/195/767",
    ),
    (
        Step::Amend(4, 62),
        "done; open on 2: 36/110/207 86/141/178 93/195/525 62/195/767",
    ),
    (
        Step::Cores(17),
        "refused by 1; open on 2: 36/110/207 86/141/178 93/195/525 62/195/767",
    ),
    (
        Step::Strike(5),
        "refused by 4; open on 2: 36/110/207 86/141/178 93/195/525 62/195/767",
    ),
    (
        Step::Enter(5, 4, 9),
        "refused by 3; open on 2: 36/110/207 86/141/178 93/195/525 62/195/767",
    ),
    (
        Step::Amend(5, 0),
        "refused by 4; open on 2: 36/110/207 86/141/178 93/195/525 62/195/767",
    ),
    (
        Step::SeekLengths,
        "not applicable; open on 2: 36/110/207 86/141/178 93/195/525 62/195/767",
    ),
    (
        Step::Reopen,
        "not applicable; open on 2: 36/110/207 86/141/178 93/195/525 62/195/767",
    ),
    (
        Step::FixFull,
        "done; fixed on 2: order 1 2 3 4; lengths 1 1 1 1; bounds 0 0 0 0",
    ),
    (
        Step::FixFull,
        "not applicable; fixed on 2: order 1 2 3 4; lengths 1 1 1 1; bounds 0 0 0 0",
    ),
    (
        Step::Cores(3),
        "not applicable; fixed on 2: order 1 2 3 4; lengths 1 1 1 1; bounds 0 0 0 0",
    ),
    (
        Step::Order([2, 1, 3, 4]),
        "done; fixed on 2: order 2 1 3 4; lengths 1 1 1 1; bounds 0 0 0 0",
    ),
    (
        Step::SeekLengths,
        "refused by 7; fixed on 2: order 2 1 3 4; lengths 1 1 1 1; bounds 0 0 0 0",
    ),
    (
        Step::Quick(QuickCall::Lengths),
        "not applicable; fixed on 2: order 2 1 3 4; lengths 1 1 1 1; bounds 0 0 0 0",
    ),
    (
        Step::SeekPlan,
        "done; fixed on 2: order 2 1 4 3; lengths 1 1 58 1; bounds 0 0 0 0; passed",
    ),
    (
        Step::SeekBounds,
        "done; fixed on 2: order 2 1 4 3; lengths 1 1 58 1; bounds 93 86 185 152; passed; bounded",
    ),
    (
        Step::Order([1, 1, 2, 3]),
        "refused by 5; fixed on 2: order 2 1 4 3; lengths 1 1 58 1; bounds 93 86 185 152; passed; bounded",
    ),
    (
        Step::Stretch(5, 1),
        "refused by 4; fixed on 2: order 2 1 4 3; lengths 1 1 58 1; bounds 93 86 185 152; passed; bounded",
    ),
    (
        Step::Stretch(3, 94),
        "refused by 6; fixed on 2: order 2 1 4 3; lengths 1 1 58 1; bounds 93 86 185 152; passed; bounded",
    ),
    (
        Step::Quick(QuickCall::Plan),
        "not applicable; fixed on 2: order 2 1 4 3; lengths 1 1 58 1; bounds 93 86 185 152; passed; bounded",
    ),
    (
        Step::Stretch(3, 57),
        "done; fixed on 2: order 2 1 4 3; lengths 1 1 57 1; bounds 0 0 0 0",
    ),
    (
        Step::SeekLengths,
        "done; fixed on 2: order 2 1 4 3; lengths 1 1 58 1; bounds 0 0 0 0; passed",
    ),
    (
        Step::Reopen,
        "done; open on 2: 36/110/207 86/141/178 93/195/525 62/195/767",
    ),
    (
        Step::Quick(QuickCall::Plan),
        "not applicable; open on 2: 36/110/207 86/141/178 93/195/525 62/195/767",
    ),
    (
        Step::FixLimited,
        "done; fixed on 2: order 1 2 3 4; lengths 1 1 1 1; bounds 0 0 0 0",
    ),
    (
        Step::SeekPlan,
        "refused by 9; fixed on 2: order 1 2 3 4; lengths 1 1 1 1; bounds 0 0 0 0",
    ),
    (
        Step::SeekBounds,
        "done; fixed on 2: order 1 2 3 4; lengths 1 1 1 1; bounds 36 86 129 169; bounded",
    ),
    (
        Step::SeekLengths,
        "refused by 7; fixed on 2: order 1 2 3 4; lengths 1 1 1 1; bounds 36 86 129 169; bounded",
    ),
    (
        Step::Reopen,
        "done; open on 2: 36/110/207 86/141/178 93/195/525 62/195/767",
    ),
    (
        Step::Strike(4),
        "done; open on 2: 36/110/207 86/141/178 93/195/525",
    ),
];

// Steady rules, one of them with a handler, and then one that is not.
pub const STEADY_RULES: [(Step, &str); 31] = [
    (Step::Cores(2), "done; open on 2:"),
    (Step::Enter(36, 110, 207), "done; open on 2: 36/110/207"),
    (
        Step::Enter(86, 141, 178),
        "done; open on 2: 36/110/207 86/141/178",
    ),
    (
        Step::Enter(93, 195, 525),
        "done; open on 2: 36/110/207 86/141/178 93/195/525",
    ),
    (
        Step::Enter(61, 195, 767),
        "done; open on 2: 36/110/207 86/141/178 93/195/525 61/195/767",
    ),
    (
        Step::Amend(4, 62),
        "done; open on 2: 36/110/207 86/141/178 93/195/525 62/195/767",
    ),
    (
        Step::FixSteady,
        "done; fixed on 2: order 1 2 3 4; lengths 1 1 1 1; bounds 0 0 0 0",
    ),
    (
        Step::Quick(QuickCall::Plan),
        "done; fixed on 2: order 2 1 4 3; lengths 1 1 58 1; bounds 0 0 0 0; passed",
    ),
    (
        Step::SeekBounds,
        "done; fixed on 2: order 2 1 4 3; lengths 1 1 58 1; bounds 93 86 185 152; passed; bounded",
    ),
    (
        Step::Reopen,
        "done; open on 2: 36/110/207 86/141/178 93/195/525 62/195/767",
    ),
    (
        Step::FixHandler(1, 100),
        "done; fixed on 2: order 1 2 3 4; lengths 1 1 1 1; bounds 0 0 0 0",
    ),
    (
        Step::Quick(QuickCall::Plan),
        "done; fixed on 2: order 2 1 4 3; lengths 1 1 59 1; bounds 0 0 0 0; passed",
    ),
    (
        Step::Quick(QuickCall::Lengths),
        "done; fixed on 2: order 2 1 4 3; lengths 1 1 59 1; bounds 0 0 0 0; passed",
    ),
    (
        Step::SeekBounds,
        "done; fixed on 2: order 2 1 4 3; lengths 1 1 59 1; bounds 95 87 186 157; passed; bounded",
    ),
    (
        Step::Order([1, 2, 3, 4]),
        "done; fixed on 2: order 1 2 3 4; lengths 1 1 59 1; bounds 0 0 0 0",
    ),
    (
        Step::Quick(QuickCall::Lengths),
        "refused by 7; fixed on 2: order 1 2 3 4; lengths 1 1 59 1; bounds 0 0 0 0",
    ),
    (
        Step::SeekBounds,
        "done; fixed on 2: order 1 2 3 4; lengths 1 1 59 1; bounds 37 124 130 193; bounded",
    ),
    (
        Step::Reopen,
        "done; open on 2: 36/110/207 86/141/178 93/195/525 62/195/767",
    ),
    (
        Step::Strike(1),
        "done; open on 2: 86/141/178 93/195/525 62/195/767",
    ),
    (
        Step::Amend(1, 30),
        "done; open on 2: 30/141/178 93/195/525 62/195/767",
    ),
    (
        Step::FixHandler(1, 100),
        "done; fixed on 2: order 1 2 3; lengths 1 1 1; bounds 0 0 0",
    ),
    (
        Step::Quick(QuickCall::Lengths),
        "done; fixed on 2: order 1 2 3; lengths 1 1 1; bounds 0 0 0; passed",
    ),
    (
        Step::SeekBounds,
        "done; fixed on 2: order 1 2 3; lengths 1 1 1; bounds 30 94 93; passed; bounded",
    ),
    (
        Step::Order([1, 2, 3, 4]),
        "refused by 5; fixed on 2: order 1 2 3; lengths 1 1 1; bounds 30 94 93; passed; bounded",
    ),
    (
        Step::Reopen,
        "done; open on 2: 30/141/178 93/195/525 62/195/767",
    ),
    (
        Step::FixLimited,
        "done; fixed on 2: order 1 2 3; lengths 1 1 1; bounds 0 0 0",
    ),
    (
        Step::Quick(QuickCall::Lengths),
        "not applicable; fixed on 2: order 1 2 3; lengths 1 1 1; bounds 0 0 0",
    ),
    (
        Step::SeekLengths,
        "done; fixed on 2: order 1 2 3; lengths 1 1 1; bounds 0 0 0; passed",
    ),
    (
        Step::SeekBounds,
        "done; fixed on 2: order 1 2 3; lengths 1 1 1; bounds 30 93 92; passed; bounded",
    ),
    (
        Step::SeekPlan,
        "done; fixed on 2: order 3 2 1; lengths 1 1 1; bounds 0 0 0; passed",
    ),
    (
        Step::SeekBounds,
        "done; fixed on 2: order 3 2 1; lengths 1 1 1; bounds 92 93 62; passed; bounded",
    ),
];

// The second example, and again with another deadline for its last task.
pub const SECOND_EXAMPLE: [(Step, &str); 19] = [
    (Step::Cores(2), "done; open on 2:"),
    (Step::Enter(10, 10, 100), "done; open on 2: 10/10/100"),
    (Step::Enter(5, 10, 10), "done; open on 2: 10/10/100 5/10/10"),
    (
        Step::Enter(5, 15, 15),
        "done; open on 2: 10/10/100 5/10/10 5/15/15",
    ),
    (
        Step::Enter(7, 100, 100),
        "done; open on 2: 10/10/100 5/10/10 5/15/15 7/100/100",
    ),
    (
        Step::FixFull,
        "done; fixed on 2: order 1 2 3 4; lengths 1 1 1 1; bounds 0 0 0 0",
    ),
    (
        Step::SeekBounds,
        "done; fixed on 2: order 1 2 3 4; lengths 1 1 1 1; bounds 10 5 10 23; bounded",
    ),
    (
        Step::Stretch(4, 2),
        "done; fixed on 2: order 1 2 3 4; lengths 1 1 1 2; bounds 0 0 0 0",
    ),
    (
        Step::SeekBounds,
        "done; fixed on 2: order 1 2 3 4; lengths 1 1 1 2; bounds 10 6 15 27; bounded",
    ),
    (
        Step::SeekLengths,
        "done; fixed on 2: order 1 2 3 4; lengths 1 1 1 1; bounds 0 0 0 0; passed",
    ),
    (
        Step::Reopen,
        "done; open on 2: 10/10/100 5/10/10 5/15/15 7/100/100",
    ),
    (
        Step::Strike(4),
        "done; open on 2: 10/10/100 5/10/10 5/15/15",
    ),
    (
        Step::Enter(7, 25, 100),
        "done; open on 2: 10/10/100 5/10/10 5/15/15 7/25/100",
    ),
    (
        Step::FixSteady,
        "done; fixed on 2: order 1 2 3 4; lengths 1 1 1 1; bounds 0 0 0 0",
    ),
    (
        Step::Stretch(4, 2),
        "done; fixed on 2: order 1 2 3 4; lengths 1 1 1 2; bounds 0 0 0 0",
    ),
    (
        Step::SeekBounds,
        "refused by 10; fixed on 2: order 1 2 3 4; lengths 1 1 1 2; bounds 0 0 0 0",
    ),
    (
        Step::Quick(QuickCall::Lengths),
        "refused by 7; fixed on 2: order 1 2 3 4; lengths 1 1 1 2; bounds 0 0 0 0",
    ),
    (
        Step::Quick(QuickCall::Plan),
        "refused by 9; fixed on 2: order 1 2 3 4; lengths 1 1 1 2; bounds 0 0 0 0",
    ),
    (
        Step::SeekBounds,
        "refused by 10; fixed on 2: order 1 2 3 4; lengths 1 1 1 2; bounds 0 0 0 0",
    ),
];
