//! Tests of what no run of the program shows: the board at every moment of worked runs and whenever memory is refused, which tickets its moves
//! give, and calls that the program doesn't make. They are apart from the crates that they test, so that none is proved twice.
#![tactic(auto)]

#[cfg(test)]
mod doors;
#[cfg(test)]
mod filling;
#[cfg(test)]
mod journals;
#[cfg(test)]
mod lists;
#[cfg(test)]
mod loading;
#[cfg(test)]
mod moments;
#[cfg(test)]
mod printing;
#[cfg(test)]
mod scene;
#[cfg(test)]
mod texts;
#[cfg(test)]
mod tickets;
