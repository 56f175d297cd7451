// Tests of machine files, and of the forms of their fields.

#![tactic(auto)]

#[cfg(test)]
mod files;
#[cfg(test)]
mod forms;
#[cfg(test)]
mod lines;
#[cfg(test)]
mod machines;
#[cfg(test)]
mod reading;
#[cfg(test)]
mod sizes;
