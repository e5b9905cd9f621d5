//! Tests of what only code can make: couriers that fail, threads that share a desk or jobs, and values that no
//! program prints.
#![tactic(auto)]

#[cfg(test)]
mod tests;
