// Examples of the reference list, with what they must come to.

#![tactic(auto)]

#[cfg(test)]
mod many;
#[cfg(test)]
mod tests;
#[cfg(test)]
mod words;
