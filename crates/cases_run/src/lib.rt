// Readings that run: inputs as text, and what reading them answers.
#![tactic(auto)]

#[cfg(test)]
mod answers;
#[cfg(test)]
mod bytes;
#[cfg(test)]
mod whole;
