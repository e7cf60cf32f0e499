//! Tests of the program's parts as the program calls them: runs over memory and over readers and writers that fail, the
//! arguments of the command line, simulated clusters of written schedules, and the calls of `explain`. Whole runs on a
//! bundle, of which the bytes are told, are the worked examples in `tests/cases`.
#![tactic(auto)]

#[cfg(test)]
mod arguments;
#[cfg(test)]
mod case;
#[cfg(test)]
mod clusters;
#[cfg(test)]
mod each_mode;
#[cfg(test)]
mod explanations;
#[cfg(test)]
mod failing;
#[cfg(test)]
mod faults;
#[cfg(test)]
mod lines;
#[cfg(test)]
mod plans;
#[cfg(test)]
mod runs;
#[cfg(test)]
mod schedule;
#[cfg(test)]
mod simulate_arguments;
#[cfg(test)]
mod streams;
#[cfg(test)]
mod written;
