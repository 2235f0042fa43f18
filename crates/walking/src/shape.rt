// SPDX-License-Identifier: Apache-2.0 OR MIT
// The shapes of a call. Callees, member bases and the key `caller` are matched unpeeled.
ghost use Rattle.std.specs.Prelude.{◌≡◌, take, drop, length};
ghost use Rattle.fields.specs.Field.{front};
ghost use Rattle.walking.specs.Walking.{present, ident, method, receiver, is_debit, is_payout};

use fields::bytes::same_bytes;
use fields::front::{part_of, tag_of, text_of};
use tags::{CALL, CALLER, IDENTIFIER, MEMBER};

// Whether a field stands at the front of s.
pub fn is_present(s: &[u8]) -> bool
    ensures { result ≡ present (front s.now) }
{
    1 <= tag_of(s)
}

// The name of the identifier at the front of s; no bytes of anything else, as the rules define it: no identifier has a name without
// bytes, so names are compared without asking whether there is one.
pub fn ident(s: &[u8]) -> &[u8]
    ensures reads { result.now ≡ ident (front s.now) }
    ensures shows { result.now ≡ take (length (ident (front s.now))) (drop 3 s.now) }
{
    if tag_of(s) == IDENTIFIER {
        return text_of(s);
    }
    &s[..0]
}

// The name of the member that the call at the front of s calls; no bytes where it calls none, as the rules define it.
pub fn method(s: &[u8]) -> &[u8]
    ensures { result.now ≡ method (front s.now) }
{
    let callee = part_of(s, 0);
    if (tag_of(s) == CALL) & (tag_of(callee) == MEMBER) {
        return text_of(part_of(callee, 1));
    }
    &s[..0]
}

// The identifier on which it is called.
pub fn receiver(s: &[u8]) -> &[u8]
    ensures { result.now ≡ receiver (front s.now) }
{
    ident(part_of(part_of(s, 0), 0))
}

// Whether the field at the front of s is a caller debit, `m.debit(caller, amount)`.
pub fn is_debit(s: &[u8]) -> bool
    ensures { result ≡ is_debit (front s.now) }
{
    same_bytes(method(s), b"debit")
        & (tag_of(part_of(part_of(s, 0), 0)) == IDENTIFIER)
        & (tag_of(part_of(s, 1)) == CALLER)
        & is_present(part_of(s, 2))
}

// Whether it is a payout, `send_asset(token, receiver, value)`.
pub fn is_payout(s: &[u8]) -> bool
    ensures { result ≡ is_payout (front s.now) }
{
    (tag_of(s) == CALL)
        & same_bytes(ident(part_of(s, 0)), b"send_asset")
        & is_present(part_of(s, 3))
}
