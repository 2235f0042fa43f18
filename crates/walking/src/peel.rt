// SPDX-License-Identifier: Apache-2.0 OR MIT
// An expression without the Checked and Wrapping around it.
ghost use Rattle.std.specs.Prelude.{◌≡◌, drop, length};
ghost use Rattle.fields.specs.Field.{front};
ghost use Rattle.walking.specs.Walking.{peel, peel_place};

use fields::bytes::skip;
use fields::front::{is_whole, parts_of, tag_of};
use tags::is_wrapper;

// The place in s of the first field, from the one at its front inwards, that is neither Checked nor Wrapping.
// What stands behind a wrapper is not inside it: where a wrapper holds no whole field, the place is the end of s. The rules ask for
// this form of it: a loop that breaks with the place.
pub fn peel_place(s: &[u8]) -> usize
    ensures reads { front (drop result s.now) ≡ peel (front s.now) }
    ensures stands { result ≡ peel_place (length s.now) 0 (front s.now) }
{
    let mut t = s;
    let mut at = 0;
    loop {
        if !is_wrapper(tag_of(t)) {
            break at;
        }
        let u = parts_of(t);
        if !is_whole(u) {
            break s.len();
        }
        t = u;
        at += 3;
    }
}

// s from there on.
pub fn peel(s: &[u8]) -> &[u8]
    ensures reads { front result.now ≡ peel (front s.now) }
    ensures shows { result.now ≡ drop (peel_place (length s.now) 0 (front s.now)) s.now }
{
    skip(s, peel_place(s))
}
