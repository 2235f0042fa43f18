// SPDX-License-Identifier: Apache-2.0 OR MIT
// The conditions of a limit, a denial or a guard, taken apart.
#![tactic(auto)]

pub mod list;
pub mod operator;
