// SPDX-License-Identifier: Apache-2.0 OR MIT
// The state field that covers a payout by itself, for those who compare it: the verdict asks for it only where no backing
// decides, and uses it up. The questions about the file and the entry come first, as they do before a verdict.
#![tactic(auto)]

ghost use Rattle.std.specs.Prelude.{◌≡◌, ◌≤◌, [], ◌∷◌, length};
ghost use Rattle.fields.specs.Field.{fields};
ghost use Rattle.reserves.specs.Covers.{index_in, asked_reserve};
ghost use Rattle.entries.specs.Entered.{entry_of, CallsOf};
ghost use Rattle.claim.specs.Reserve.{payout_reserve};
ghost use Rattle.payout_reserve.specs.Answer.{entry_reserve, file_reserve, answer_of};

use entries::calls::list_where;
use entries::entry::Entry;
use fundings::facts::nothing_known;
use questions::file::check_file;
use questions::question::Refusal;
use reserves::reading::Reading;
use tags::CALL;
use verdict::entry::place_or_refusal;
use walking::shape::is_payout;
use walking::walk::{MOST_FIELDS, list_body};

// That of the payout at a place, in the entry at another place of the file, by itself.
fn reserve_for(file: &[u8], place: usize, payout: u16) -> Option<usize>
    requires { length file.now ≤ 32768 }
    ensures { result ≡ asked_reserve file.now place (payout ∷ []) 0 }
{
    let mut paid = [0u16; 65];
    paid[0] = payout;
    let entry = Entry {
        place: place,
        debits: 0,
        total: 0,
        payouts: 1,
        backed: [0u16; 64],
        paid: paid,
    };
    let mut facts = nothing_known(file);
    let mut scratch = [0u16; MOST_FIELDS];
    Reading::new(&mut facts, &mut scratch).reserve_bounding_payout(&entry, 0)
}

// That of the k-th payout among the calls of the entry at a place of the file. k is asked for, and is no length of the calls.
fn reserve_among(file: &[u8], place: usize, calls: &[u16], k: usize) -> Option<usize>
    requires { CallsOf file.now place calls.now }
    ensures { result ≡ index_in (fields file.now) (payout_reserve (fields file.now) (entry_of file.now place) k) }
{
    let mut table = [0u16; MOST_FIELDS];
    let payouts = list_where(file, calls, is_payout, &mut table);
    let payout = payouts.listed().get(k)?;
    reserve_for(file, place, *payout)
}

// That of the k-th payout of the entry at a place of the file. There is room for every call of a file that passes question 1,
// and so for every payout.
fn reserve_at(file: &[u8], place: usize, k: usize) -> Option<usize>
    requires short { length file.now ≤ 32768 }
    requires inside { place ≤ length file.now }
    ensures { result ≡ index_in (fields file.now) (payout_reserve (fields file.now) (entry_of file.now place) k) }
{
    let mut table = [0u16; MOST_FIELDS];
    let calls = list_body(file, place, CALL, &mut table);
    reserve_among(file, place, calls.listed(), k)
}

// The number of the state field that covers the payout, counted from 0, if one does; or a "no" to a question.
pub type ReserveAnswer = Result<Option<usize>, Refusal>;

// The answer about the k-th payout of the n-th entry of a file that passes questions 1 to 8: question 9 comes first.
fn entry_reserve(file: &[u8], n: usize, k: usize) -> ReserveAnswer
    requires { length file.now ≤ 32768 }
    ensures { answer_of result ≡ entry_reserve (fields file.now) n k }
{
    let place = place_or_refusal(file, n)?;
    Ok(reserve_at(file, place, k))
}

// The same of any file: questions 1 to 9 come first. Both numbers are counted from 0.
pub fn payout_reserve(file: &[u8], n: usize, k: usize) -> ReserveAnswer
    ensures { answer_of result ≡ file_reserve file.now n k }
{
    check_file(file)?;
    entry_reserve(file, n, k)
}
