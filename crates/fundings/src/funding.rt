// SPDX-License-Identifier: Apache-2.0 OR MIT
// Whether an entry funds a map.
ghost use Rattle.std.specs.Prelude.{◌≡◌, drop};
ghost use Rattle.fields.specs.Field.{front};
ghost use Rattle.fundings.specs.FundingTokens.{funds};

use fields::bytes::skip;
use tags::CALL;
use tokens::entry::EntryPlace;
use tokens::inflow::is_funding;
use walking::walk::{MOST_FIELDS, list_body};

// Whether the entry funds the map. A file that passes question 1 has fewer calls than the table has places.
pub fn entry_funds(entry: &EntryPlace, map: &[u8]) -> bool
    ensures { result ≡ funds map.now (front (drop entry.now.place entry.now.file.now)) }
{
    let s = entry.part();
    let mut table = [0u16; MOST_FIELDS];
    let calls = list_body(s, 0, CALL, &mut table);
    calls
        .listed()
        .iter()
        .any(|&call| is_funding(map, s, skip(s, usize::from(call))))
}
