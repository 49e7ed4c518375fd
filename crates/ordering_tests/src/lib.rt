// Tests of orders on a small board and on boards of many rails, of scripts, and of settling.
#![tactic(auto)]

#[cfg(test)]
mod many_rails;
#[cfg(test)]
mod samples;
#[cfg(test)]
mod script_checks;
#[cfg(test)]
mod settlings;
#[cfg(test)]
mod small_orders;
