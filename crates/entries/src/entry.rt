// SPDX-License-Identifier: Apache-2.0 OR MIT
// An entry by value: its place in the file; how many caller debits, backings and payouts there are; the places of its backings,
// debits first, and of its payouts. One more payout than 64 finds room: question 10 tells its place. The counts go on where there
// is no room, as questions 10 and 11 ask, so that they stand beside the arrays and are no lengths of them.
ghost use Rattle.std.specs.Prelude.{◌≡◌};
ghost use Rattle.entries.specs.Entered.{Lent, Read};

use super::calls::{list_parameters, list_where};
use tags::CALL;
use walking::shape::{is_debit, is_payout};
use walking::walk::list_body;

#[derive(Clone, Copy)]
pub struct Entry {
    pub place: usize,
    pub debits: usize,
    pub total: usize,
    pub payouts: usize,
    pub backed: [u16; 64],
    pub paid: [u16; 65],
}

// The entry at a place of the file. The table is lent for the calls of its body, which are listed once. Its backings are the debits
// among the calls, and behind them its asset parameters.
pub fn read_entry(file: &[u8], place: usize, table: &mut [u16]) -> Entry
    requires { Lent file.now place table.old }
    ensures read { Read file.now result }
    ensures here { result.place ≡ place }
{
    let body = list_body(file, place, CALL, table);
    let calls = body.listed();
    let mut paid = [0u16; 65];
    let payouts = list_where(file, calls, is_payout, &mut paid).count;
    let mut backed = [0u16; 64];
    let mut backings = list_where(file, calls, is_debit, &mut backed);
    let debits = backings.count;
    list_parameters(file, place, &mut backings);
    let total = backings.count;
    Entry {
        place,
        debits,
        total,
        payouts,
        backed,
        paid,
    }
}
