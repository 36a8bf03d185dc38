// Tests of reading and writing rule files, and of what a whole input is answered. The crate has nothing else.
#![tactic(auto)]

#[cfg(test)]
mod cuts;
#[cfg(test)]
mod faults;
#[cfg(test)]
mod inputs;
#[cfg(test)]
mod lawful;
#[cfg(test)]
mod machine;
#[cfg(test)]
mod printed;
#[cfg(test)]
mod random;
#[cfg(test)]
mod slots;
#[cfg(test)]
mod support;
#[cfg(test)]
mod written;
