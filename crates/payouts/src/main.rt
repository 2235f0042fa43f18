// SPDX-License-Identifier: Apache-2.0 OR MIT
// Reads a model file from standard input, and writes its listing to standard output.
#![tactic(auto)]

use listing::lines::listing;
use std::io::{self, Read, Write};

// A byte more than question 1 allows is room enough: whatever follows, the answer is the same.
const MOST_READ: u64 = 32769;

// 65,536 bytes hold every listing.
const MOST_WRITTEN: usize = 65536;

fn main(rt: HostRuntime) -> io::Result<()> {
    let mut file = Vec::new(rt.alloc());
    rt.reader().take(MOST_READ).read_to_end(&mut file)?;
    let mut buffer = [0u8; MOST_WRITTEN];
    let length = listing(&file, &mut buffer);
    io::writer(&rt).write_all(&buffer[..length])
}
