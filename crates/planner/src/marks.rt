// The two marks of a fixed table; both are off by default. They are no Options of lengths and bounds: a table has both
// anyway, and a mark says what is known of them.
#[derive(Clone, Copy, Default, PartialEq, Eq, Debug)]
pub struct Marks {
    // every task passes
    pub passed: bool,
    // the bounds solve the equations
    pub bounded: bool,
}

impl Marks {
    // the marks that a search for lengths or a plan sets
    pub(crate) const PASSED: Marks = Marks {
        passed: true,
        bounded: false,
    };
}
