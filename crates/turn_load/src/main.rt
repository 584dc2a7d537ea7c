//! A load on the ticket lock and on the number stock, for measuring: four threads that take turns, four threads that
//! draw from one stock, or one thread that draws as much.
#![tactic(auto)]

ghost use Rattle.std.specs.Prelude.{◌≤◌};

mod counting;
mod drawing;
mod orders;

use crate::counting::turns_by_four;
use crate::drawing::{Tally, draws_by_four, draws_by_one};
use crate::orders::{Load, Order, order_of};
use std::process::ExitCode;
use std::sync::Wait;
use std::thread::Threads;
use std::{env, io};

const WRONG_WORDS: u8 = 2;

const NO_MEMORY: u8 = 12;

fn main(rt: HostRuntime) -> io::Result<ExitCode> {
    let mut words = Vec::new(rt.alloc());
    for word in env::args(&rt)?.skip(1) {
        words.push(word)?;
    }
    let Some(order) = order_of(words.as_slice()) else {
        eprintln!(&rt; "words: turns, draws, draws-alone or all; steps of each thread; rounds")?;
        return Ok(ExitCode::from(WRONG_WORDS));
    };
    if run(&rt, order)? {
        Ok(ExitCode::SUCCESS)
    } else {
        Ok(ExitCode::from(NO_MEMORY))
    }
}

/// Runs an order, and says whether there was memory for it.
fn run<R: Threads + Wait + Print + AllocGlobal + Sync>(rt: &R, order: Order) -> io::Result<bool>
    requires { order.each ≤ 1000000 }
{
    match order.load {
        Load::Turns => show_turns(rt, order),
        Load::Draws => show_draws(rt, order, true),
        Load::DrawsAlone => show_draws(rt, order, false),
        Load::All => Ok(
            show_turns(rt, order)? && show_draws(rt, order, true)? && show_draws(rt, order, false)?,
        ),
    }
}

fn show_turns<R: Threads + Wait + Print + AllocGlobal + Sync>(
    rt: &R,
    order: Order,
) -> io::Result<bool> {
    let mut turns: u64 = 0;
    for _ in 0..order.rounds {
        let Some(counted) = turns_by_four(rt, rt.alloc(), order.each) else {
            return Ok(false);
        };
        turns = turns.wrapping_add(counted.turns);
    }
    println!(rt; "turns of four threads: {turns}")?;
    Ok(true)
}

fn show_draws<R: Threads + Print + AllocGlobal + Sync>(
    rt: &R,
    order: Order,
    by_four: bool,
) -> io::Result<bool>
    requires { order.each ≤ 1000000 }
{
    let mut count: u64 = 0;
    let mut sum: u64 = 0;
    for _ in 0..order.rounds {
        let drawn = if by_four {
            draws_by_four(rt, rt.alloc(), order.each)
        } else {
            draws_by_one(rt.alloc(), order.each)
        };
        let Some(
            Tally {
                count: more,
                sum: added,
            },
        ) = drawn
        else {
            return Ok(false);
        };
        count = count.wrapping_add(more);
        sum = sum.wrapping_add(added);
    }
    let threads = if by_four { 4 } else { 1 };
    println!(rt; "numbers drawn by threads: {threads}, numbers: {count}, their sum: {sum}")?;
    Ok(true)
}
