// SPDX-License-Identifier: Apache-2.0 OR MIT
// The p of `p.amount`.
ghost use Rattle.std.specs.Prelude.{◌≡◌};
ghost use Rattle.fields.specs.Field.{front};
ghost use Rattle.walking.specs.Walking.{asset_amount_backer};
ghost use Rattle.walking.specs.Node.{node_of};

use fields::bytes::same_bytes;
use fields::front::{front_tag, is_whole, length_of, part_of, text_of};
use tags::{IDENTIFIER, MEMBER};

// Where the content of the field at the front of s ends, if it is a whole field of this tag.
fn node_at(s: &[u8], tag: u8) -> Option<usize>
    ensures { result ≡ node_of s.now tag }
{
    if is_whole(s) & (front_tag(s) == tag) {
        return Some(3 + length_of(s));
    }
    None
}

// The name p where `p.amount` stands at the front of s. Anything else gives no backer and leaves at once: no bytes, as the rules
// define it, since no parameter has a name without bytes.
pub fn asset_amount_backer(s: &[u8]) -> &[u8]
    ensures { result.now ≡ asset_amount_backer (front s.now) }
{
    let Some(_) = node_at(s, MEMBER) else {
        return &s[..0];
    };
    if !same_bytes(text_of(part_of(s, 1)), b"amount") {
        return &s[..0];
    }
    let base = part_of(s, 0);
    let Some(end) = node_at(base, IDENTIFIER) else {
        return &s[..0];
    };
    &base[3..end]
}
