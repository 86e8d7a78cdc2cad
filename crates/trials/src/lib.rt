// Sessions that are run on many small maps and compared with a plain model.
#![tactic(auto)]

#[cfg(test)]
mod tests;
