ghost use Rattle.interference.specs.Questions.{TimesWithinLimits, SizesWithinLimits, RivalsWithinLimits, posed};

use crate::rival::Rival;

mod checking;

// A question to a rule: the cores, the window, the task's own demand and region length, and its rivals in higher and
// in lower places. Every value of this type is within the limits.
#[derive(Clone, Copy)]
pub struct Question<'a> {
    pub cores: u32,
    pub window: u32,
    pub demand: u32,
    pub region: u32,
    pub upper: &'a [Rival],
    pub lower: &'a [Rival],
    ghost times: { TimesWithinLimits (posed cores window demand region upper.now lower.now) },
    ghost sizes: { SizesWithinLimits (posed cores window demand region upper.now lower.now) },
    ghost uppers: { RivalsWithinLimits upper.now },
    ghost lowers: { RivalsWithinLimits lower.now },
}
