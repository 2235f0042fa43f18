// SPDX-License-Identifier: Apache-2.0 OR MIT
// General laws. This crate has no code: its specs are the definitions on lists, texts and numbers that the rules use, and its
// proofs are laws of lists, numbers and truth values, each in one place for all crates.
#![tactic(auto)]
