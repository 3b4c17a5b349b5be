//! Tests of what threads share: the running stack, by steps that are refused memory and in threads of its own, the cancel pads, the exchange
//! of tickets, and analyses side by side. They alone start threads.
#![tactic(auto)]

#[cfg(test)]
mod analyses;
#[cfg(test)]
mod cancel_pads;
#[cfg(test)]
mod crowds;
#[cfg(test)]
mod filters;
#[cfg(test)]
mod fixture;
#[cfg(test)]
mod journals;
#[cfg(test)]
mod scripts;
#[cfg(test)]
mod tickets;
