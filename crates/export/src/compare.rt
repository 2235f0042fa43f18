// What is called for comparisons with the original alone: functions under the verdict, one by one.
//
// zevdrak_reserve_bounding_payout asks the questions about the file and the entry first. The others ask none, since they are
// compared on parts of files too, and go into what they are given as deep as it is nested: each level takes stack, so that bytes
// that are nested thousands deep overflow a small one. On a file that passes zevdrak_check_file, whose expressions are at most 32
// deep, they take little. include/zevdrak_compare.h says how much.
ghost use Rattle.std.specs.Prelude.{◌≡◌};
ghost use Rattle.fields.specs.Field.{fields, front};
ghost use Rattle.equality.specs.Equality.{expr_eq};
ghost use Rattle.bounds.specs.Bounds.{bounded_by_backing};
ghost use Rattle.tokens.specs.Tokens.{admitted_inflow_token};
ghost use Rattle.fundings.specs.FundingTokens.{funding_token};
ghost use Rattle.reserve_tokens.specs.ReserveTokens.{reserve_token};
ghost use Rattle.payout_reserve.specs.Answer.{file_reserve};
ghost use Rattle.export.specs.Token.{is_token_of};
ghost use Rattle.export.specs.Reserve.{reserve_outcome, reserve_first, reserve_second};

use bounds::bounded_by_backing;
use equality::expr_eq;
use fields::bytes::same_bytes;
use fundings::facts::nothing_known;
use fundings::token::ledger_funding_token;
use payout_reserve::payout_reserve;
use reserve_tokens::reserve::reserve_token;
use tokens::token::admitted_inflow_token;
use walking::walk::MOST_FIELDS;

// What the first number is where no state field covers the payout: no file has as many.
const NO_FIELD: usize = 65535;

// Whether the expressions at the fronts of two parts of a file are equal.
#[unsafe(no_mangle)]
pub extern "C" fn zevdrak_expr_eq(a: &[u8], b: &[u8]) -> bool
    ensures { result ≡ expr_eq (front a.now) (front b.now) }
{
    expr_eq(a, b)
}

// Whether the backing at the front of one part bounds the amount at the front of another, with wrapping on or off as C says.
#[unsafe(no_mangle)]
pub extern "C" fn zevdrak_bounded_by_backing(amount: &[u8], backing: &[u8], wrapping: bool) -> bool
    ensures { result ≡ bounded_by_backing (front amount.now) (front backing.now) wrapping }
{
    bounded_by_backing(amount, backing, wrapping)
}

// Whether the token, no bytes for none, is the one that the entry at the front of a part of a file admits. A part that is
// longer than a file may be has none of which this is told.
#[unsafe(no_mangle)]
pub extern "C" fn zevdrak_is_admitted_inflow_token(entry: &[u8], token: &[u8]) -> bool
    ensures { result ≡ is_token_of entry.now (admitted_inflow_token (front entry.now)) token.now }
{
    if 32768 < entry.len() {
        return false;
    }
    same_bytes(admitted_inflow_token(entry), token)
}

// Whether it is the one token that funds the map.
#[unsafe(no_mangle)]
pub extern "C" fn zevdrak_is_ledger_funding_token(file: &[u8], map: &[u8], token: &[u8]) -> bool
    ensures { result ≡ is_token_of file.now (funding_token (fields file.now) map.now) token.now }
{
    if 32768 < file.len() {
        return false;
    }
    same_bytes(ledger_funding_token(file, map), token)
}

// Whether it is the token that the state field of that name holds.
#[unsafe(no_mangle)]
pub extern "C" fn zevdrak_is_reserve_token(file: &[u8], field: &[u8], token: &[u8]) -> bool
    ensures { result ≡ is_token_of file.now (reserve_token (fields file.now) field.now) token.now }
{
    if 32768 < file.len() {
        return false;
    }
    let facts = nothing_known(file);
    let mut scratch = [0u16; MOST_FIELDS];
    same_bytes(reserve_token(&facts, field, &mut scratch), token)
}

// The state field that covers a payout of an entry by itself, both counted from 0: 0 one does, and first is its number among the
// state fields, counted from 0; 1 none does; 2 one of questions 1 to 9 said no, with first and second as zevdrak_verdict's.
#[unsafe(no_mangle)]
pub extern "C" fn zevdrak_reserve_bounding_payout(
    file: &[u8],
    entry: usize,
    payout: usize,
    first: &mut usize,
    second: &mut usize,
) -> u8
    ensures answer { result ≡ reserve_outcome (file_reserve file.now entry payout) }
    ensures first { first.new ≡ reserve_first (file_reserve file.now entry payout) }
    ensures second { second.new ≡ reserve_second (file_reserve file.now entry payout) }
{
    match payout_reserve(file, entry, payout) {
        Ok(Some(index)) => {
            *first = index;
            *second = 0;
            0
        }
        Ok(None) => {
            *first = NO_FIELD;
            *second = 0;
            1
        }
        Err(refusal) => {
            *first = usize::from(u8::from(refusal.question));
            *second = refusal.place;
            2
        }
    }
}
