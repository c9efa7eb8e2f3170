// Tests of what no whole call over memory shows: real files and streams, and the faults of shelves and sinks.
#![tactic(auto)]

#[cfg(test)]
mod files;
#[cfg(test)]
mod memory;
#[cfg(test)]
mod streams;
