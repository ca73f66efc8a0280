use analysis::task::Task;

pub const CORES: u32 = 2;

pub const TASKS: [Task; 4] = [
    Task {
        cost: 36,
        deadline: 110,
        period: 207,
    },
    Task {
        cost: 86,
        deadline: 141,
        period: 178,
    },
    Task {
        cost: 93,
        deadline: 195,
        period: 525,
    },
    Task {
        cost: 62,
        deadline: 195,
        period: 767,
    },
];
