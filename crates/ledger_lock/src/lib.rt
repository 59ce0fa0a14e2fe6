//! The exchange with a book for each market: what every command is answered, a crossing of a market too.
//!
//! A [`House`] answers a command by the rules, and keeps for each market the book of its open orders, so that a crossing needs
//! no look through all orders.
#![tactic(auto)]

mod books;
mod crossing;
mod house;
mod turn_commands;
mod turned;

pub use house::House;
