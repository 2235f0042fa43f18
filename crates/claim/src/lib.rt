// SPDX-License-Identifier: Apache-2.0 OR MIT
// What is claimed of the verdict. This crate has no code: its specs are questions 9 to 12, the verdict and the bytes that it
// writes, and demand 3, which its proofs show of them.
#![tactic(auto)]
