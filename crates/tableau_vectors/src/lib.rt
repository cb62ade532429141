//! Layers, steps and fairness conditions of small tableaus, worked by hand: tests of the tableau, and nothing else. They
//! may touch memory.
#![tactic(auto)]

#[cfg(test)]
mod until_layers;
