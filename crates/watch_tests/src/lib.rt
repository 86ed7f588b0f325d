// Tests of what the program reads and writes, at each of its limits and where reading or writing fails, by values that were
// worked out by hand or counted apart from the code.
#![tactic(auto)]

#[cfg(test)]
mod failures;
#[cfg(test)]
mod limits;
#[cfg(test)]
mod streams;
