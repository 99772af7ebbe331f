//! Measures what waits for turns: passes at a desk in several threads, and a load beside which a viewer asks.
//!
//! The first word says what is measured: `desk THREADS TURNS`, or `follow alone|beside LIB=PATH ..`; the modules of these names say
//! what the other words are. Without a word both are done without one.
#![tactic(auto)]

use std::{env, io};

mod asking;
mod desk;
mod follow;
mod loading;
mod measuring;
mod numbers;
mod threads;

fn main(rt: HostRuntime) -> io::Result<()> {
    let word = env::args(&rt)?.nth(1);
    let what = match &word {
        Some(word) => word.as_str(),
        None => "",
    };
    match what {
        "desk" => desk::measure(&rt, &rt),
        "follow" => follow::measure(&rt, &rt),
        "" => {
            desk::measure(&rt, &rt)?;
            follow::measure(&rt, &rt)
        }
        _ => eprintln!(rt; "usage: bench_desks desk|follow [WORD..]"),
    }
}
