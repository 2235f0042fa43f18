// SPDX-License-Identifier: Apache-2.0 OR MIT
// Covers as bytes: three a payout.
ghost use Rattle.std.specs.Prelude.{◌≡◌, ◌++◌, ◌+◌, ◌*◌, ◌≤◌, length, drop};
ghost use Rattle.std.proofs.lemmas.List.Edits.{sets};
ghost use Rattle.matching.specs.Coded.{cover_of};
ghost use Rattle.claim.specs.Verdict.{kind, index};
ghost use Rattle.verdict.specs.Sheet.{cover_bytes};

use matching::answer::Cover;

// The kind of a cover. It is no `From`: that would have to stand in crates/matching, with Cover, and the rules' numbers of the
// kinds stand above it, in crates/claim.
fn kind_of(cover: Cover) -> u8
    ensures { result ≡ kind (cover_of cover) }
{
    match cover {
        Cover::EqualDebit { .. } => 1,
        Cover::EqualParameter { .. } => 2,
        Cover::BoundingDebit { .. } => 3,
        Cover::BoundingParameter { .. } => 4,
        Cover::Reserve { .. } => 5,
    }
}

// Its index.
fn index_of(cover: Cover) -> usize
    ensures { result ≡ index (cover_of cover) }
{
    match cover {
        Cover::EqualDebit { index }
        | Cover::EqualParameter { index }
        | Cover::BoundingDebit { index }
        | Cover::BoundingParameter { index }
        | Cover::Reserve { index } => index,
    }
}

// Writes the three bytes of a cover as the k-th of a sheet. As a slice of three the caller would have to cut them out, by the same
// sums.
pub fn write_cover(cover: Cover, sheet: &mut [u8], k: usize)
    requires { 3 * k + 3 ≤ length sheet.old }
    ensures { sheet.new ≡ sets sheet.old (3 * k) (cover_bytes (cover_of cover)) }
{
    let at = 3 * k;
    // Below 65,536 by the remainder: `try_from` would have to answer for what can't be.
    let [high, low] = ((index_of(cover) % 65536) as u16).to_be_bytes();
    sheet[at..at + 3].copy_from_slice(&[kind_of(cover), high, low]);
}

// Copies what is written of a sheet into the lent covers, and leaves what stands behind it.
pub fn copy_sheet(written: &[u8], covers: &mut [u8])
    requires { length written.now ≤ length covers.old }
    ensures { covers.new ≡ written.now ++ drop (length written.now) covers.old }
{
    covers[..written.len()].copy_from_slice(written);
}
