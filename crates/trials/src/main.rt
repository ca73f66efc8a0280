#![tactic(auto)]

use std::io;

mod definitions;
mod dice;
mod exhaust;
mod least;
mod orders;
mod plain_sums;
mod ranges;
mod searches;
mod setting;
mod subject;
mod table;
mod tally;
mod trial;

use analysis::finder::{Finder, Halving, Trying};
use dice::Dice;
use interference::full::Full;
use interference::handler::Handler;
use interference::interrupt::Interrupt;
use interference::limited::Limited;
use interference::rule::Rule;
use interference::steady::SteadyRule;
use plain_sums::{Bottom, Meaning, Runs};
use subject::{Subject, Trial};
use table::Table;
use tally::{Scores, Tally};

const TABLES: u32 = 400;

const SEED: u32 = 1;

const HANDLER_COST: u32 = 1;

const HANDLER_GAP: u32 = 6;

// All tables under one rule and one kind of search, the same tables each time. Says how many results differed.
fn run<R: Rule, F: Finder<R>>(
    rt: &HostRuntime,
    heading: &str,
    finder: &F,
    subject: &Subject<R>,
    bounds: Option<Tally>,
) -> io::Result<u32> {
    println!(rt; "{heading}")?;
    let mut dice = Dice::new(SEED);
    let mut scores = Scores {
        bounds,
        ..Scores::default()
    };
    for i in 0..TABLES {
        let table = Table::roll(rt.alloc(), &mut dice, i % 4 + 1)?;
        let trial = Trial {
            rt,
            subject,
            table: &table,
        };
        trial.try_lengths(finder, &mut scores)?;
        trial.try_plan(finder, &mut scores)?;
        if let Some(tally) = &mut scores.bounds {
            // the bounds of four tasks are too many to try them all
            if table.tasks.len() <= 3 {
                trial.try_bounds(&mut scores.sums, tally)?;
            }
        }
    }
    println!(rt; "{scores}")?;
    Ok(scores.differed())
}

// Both rules, and the quick searches under the one that is steady, each below its heading.
fn run_rules<F: SteadyRule, L: Rule>(
    rt: &HostRuntime,
    full: &Subject<F>,
    limited: &Subject<L>,
    headings: [&str; 3],
) -> io::Result<u32> {
    let bounds = Some(Tally::default());
    let [seek_full, quick_full, seek_limited] = headings;
    let first = run(rt, seek_full, &Trying, full, bounds)?;
    let second = run(rt, quick_full, &Halving, full, None)?;
    let third = run(rt, seek_limited, &Trying, limited, bounds)?;
    Ok(first.saturating_add(second).saturating_add(third))
}

fn run_bottoms(rt: &HostRuntime) -> io::Result<u32> {
    let meaning = |bottom| Meaning {
        bottom,
        handler: None,
    };
    let full = Subject {
        rule: Full,
        meaning: meaning(Bottom::Full),
    };
    let limited = Subject {
        rule: Limited,
        meaning: meaning(Bottom::Limited),
    };
    let headings = ["Full rule:", "Full rule, quick searches:", "Limited rule:"];
    run_rules(rt, &full, &limited, headings)
}

// The same with a handler above each rule.
fn run_layers(rt: &HostRuntime, interrupt: Interrupt) -> io::Result<u32> {
    let meaning = |bottom| Meaning {
        bottom,
        handler: Some(Runs {
            cost: HANDLER_COST,
            gap: HANDLER_GAP,
        }),
    };
    let full = Subject {
        rule: Handler {
            interrupt,
            below: Full,
        },
        meaning: meaning(Bottom::Full),
    };
    let limited = Subject {
        rule: Handler {
            interrupt,
            below: Limited,
        },
        meaning: meaning(Bottom::Limited),
    };
    let named = format!(in rt.alloc();
        "Handler of cost {HANDLER_COST} and gap {HANDLER_GAP} over the full rule:"
    )?;
    let headings = [
        named.as_str(),
        "The same handler over the full rule, quick searches:",
        "The same handler over the limited rule:",
    ];
    run_rules(rt, &full, &limited, headings)
}

fn main(rt: HostRuntime) -> io::Result<()> {
    println!(rt;
        "{TABLES} tables of 1 to 4 tasks on 1 to 3 cores; each result of a search is compared with trying everything."
    )?;
    let rules = run_bottoms(&rt)?;
    match Interrupt::check(HANDLER_COST, HANDLER_GAP) {
        Ok(interrupt) => {
            let layers = run_layers(&rt, interrupt)?;
            println!(rt; "Differed in all: {}", rules.saturating_add(layers))
        }
        Err(_) => println!(rt; "The handler is refused."),
    }
}
