// What a house's part in a census does on examples.

#![tactic(auto)]

#[cfg(test)]
mod tests;
