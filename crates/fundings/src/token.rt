// SPDX-License-Identifier: Apache-2.0 OR MIT
// The token that funds a map, read from the whole file. It is a part of the file, and no token is the empty part.
ghost use Rattle.std.specs.Prelude.{◌≡◌, ◌*◌, ◌≤◌, ◌<◌, length, take, drop};
ghost use Rattle.fields.specs.Field.{fields, front};
ghost use Rattle.walking.specs.Table.{placed_at};
ghost use Rattle.tokens.specs.Numbers.{tokens_number};
ghost use Rattle.tokens.specs.Place.{token_place};
ghost use Rattle.fundings.specs.FundingTokens.{funds, funding_token};
ghost use Rattle.fundings.specs.Fundings.{funding_number, joined_if};

use super::funding::entry_funds;
use fields::row::fields_at;
use tags::ENTRY;
use tokens::entry::{EntryPlace, entry_at};
use tokens::number::{join, token_of, tokens_number};
use walking::walk::MOST_FIELDS;

// The set found so far, with what an entry names if it funds the map.
fn joined_with(entry: &EntryPlace, map: &[u8], found: usize, table: &mut [u16]) -> usize
    requires { length entry.now.file.now ≤ 3 * length table.old }
    ensures { result ≡ joined_if entry.now.file.now (funds map.now (front (drop entry.now.place entry.now.file.now))) found
        (tokens_number entry.now.file.now (placed_at entry.now.file.now entry.now.place)) }
{
    if !entry_funds(entry, map) {
        return found;
    }
    join(entry.file, found, tokens_number(entry, table))
}

// The set of the tokens named by the entries that fund the map. The search ends where two differ. It takes the file alone, and the
// facts take it: so it asks that the file is short.
pub fn ledger_funding_number(file: &[u8], map: &[u8]) -> usize
    requires { length file.now ≤ 32768 }
    ensures reads { result ≡ funding_number file.now map.now }
    ensures small { result < 65536 }
{
    let mut table = [0u16; MOST_FIELDS];
    let mut found = 0;
    for field in fields_at(file, 0) {
        if field.tag() != ENTRY {
            continue;
        }
        found = joined_with(&entry_at(file, field.place), map, found, &mut table);
        if found == 1 {
            return 1;
        }
    }
    found
}

// The one token named by the entries that fund the map; none where they name none, or two that differ.
pub fn ledger_funding_token<'a>(file: &'a [u8], map: &[u8]) -> &'a [u8]
    requires { length file.now ≤ 32768 }
    ensures reads { result.now ≡ funding_token (fields file.now) map.now }
    ensures shows { result.now ≡ take (length result.now) (drop (token_place file.now (funding_number file.now map.now)) file.now) }
{
    token_of(file, ledger_funding_number(file, map))
}
