ghost use Rattle.std.specs.Prelude.{◌≡◌, length};
ghost use Rattle.std.specs.List.{AllByRecursion};
ghost use Rattle.examples.specs.Lines.{Means};
ghost use Rattle.examples.specs.Figures.{figures};

// Each line of the worked figures means what holds; answers how many lines there are.
pub fn worked_figures() -> usize
    ensures hold { AllByRecursion Means figures }
    ensures count { result ≡ length figures }
{
    20
}
