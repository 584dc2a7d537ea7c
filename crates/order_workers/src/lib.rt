//! A worker's loop: it takes the orders of update units and does them.
#![tactic(auto)]

mod desk;
mod rest;
mod worker;

pub use desk::{Look, OrderDesk};
pub use rest::{NoRest, Rest};
pub use worker::do_orders;
