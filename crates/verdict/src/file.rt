// SPDX-License-Identifier: Apache-2.0 OR MIT
// The verdict on an entry of any file.
ghost use Rattle.std.specs.Prelude.{◌≡◌, length};
ghost use Rattle.claim.specs.Verdict.{verdict, written};
ghost use Rattle.verdict.specs.Coded.{numbers_of, file_answer};

use super::entry::{Verdict, entry_verdict};
use questions::file::check_file;

// The verdict on the n-th entry, counted from 0. The covers are written where it is accepted, and nothing is written otherwise.
pub fn file_verdict(file: &[u8], n: usize, covers: &mut [u8]) -> Verdict
    ensures answer { numbers_of result ≡ file_answer file.now n (length covers.old) }
    ensures covers { covers.new ≡ written (verdict file.now n (length covers.old)) covers.old }
{
    check_file(file)?;
    entry_verdict(file, n, covers)
}
