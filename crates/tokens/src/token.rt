// SPDX-License-Identifier: Apache-2.0 OR MIT
// The token that an entry admits. It is a part of the file, and no token is the empty part.
ghost use Rattle.std.specs.Prelude.{◌≡◌, ◌≤◌, length, take, drop};
ghost use Rattle.fields.specs.Field.{front};
ghost use Rattle.walking.specs.Table.{placed_at};
ghost use Rattle.tokens.specs.Tokens.{admitted_inflow_token};
ghost use Rattle.tokens.specs.Numbers.{tokens_number};
ghost use Rattle.tokens.specs.Place.{token_place};

use super::entry::entry_at;
use super::number::{token_of, tokens_number};
use walking::walk::MOST_FIELDS;

// The one token that the entry at the front of s names; none where it names none, or two that differ.
pub fn admitted_inflow_token(s: &[u8]) -> &[u8]
    requires { length s.now ≤ 32768 }
    ensures reads { result.now ≡ admitted_inflow_token (front s.now) }
    ensures shows { result.now ≡ take (length result.now) (drop (token_place s.now (tokens_number s.now (placed_at s.now 0))) s.now) }
{
    let mut table = [0u16; MOST_FIELDS];
    token_of(s, tokens_number(&entry_at(s, 0), &mut table))
}
