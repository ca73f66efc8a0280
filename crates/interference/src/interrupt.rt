ghost use Rattle.interference.specs.Handlers.{HandlerWithinLimits};

mod checking;

// An interrupt handler that was checked: its cost, and the least gap between the starts of two of its runs.
#[derive(Clone, Copy)]
pub struct Interrupt {
    pub cost: u32,
    pub gap: u32,
    ghost checked: { HandlerWithinLimits cost gap },
}
