// The field at the front of a part of the file. An expression is handed on as the part of the file that starts with it, and a
// number beside it says which part of it is read: callers have the two from different places.
ghost use Rattle.std.specs.Prelude.{◌≡◌, ◌+◌, ◌*◌, ◌<◌, ◌-◌, take, drop, length};
ghost use Rattle.fields.specs.Field.{tag_of, length_of, whole, content, after, fields, front, tag, text, parts, part, nth, sizes, place_of};

use super::bytes::{byte_at, keep, skip};
use tags::is_composite;

// Two bytes as a number, most significant first.
fn two_bytes(high: u8, low: u8) -> usize
    ensures { (result ≡ high * 256 + low) × (result < 65536) }
{
    usize::from(u16::from_be_bytes([high, low]))
}

// The tag at the front of s; 0, which is no tag, where s is empty, as the rules read it.
pub fn front_tag(s: &[u8]) -> u8
    ensures { result ≡ tag_of s.now }
{
    byte_at(s, 0)
}

// The length that the head at the front of s states.
pub fn length_of(s: &[u8]) -> usize
    ensures { (result ≡ length_of s.now) × (result < 65536) }
{
    two_bytes(byte_at(s, 1), byte_at(s, 2))
}

// Whether a whole field stands at the front of s.
pub fn is_whole(s: &[u8]) -> bool
    ensures { result ≡ whole s.now }
{
    if s.len() < 3 {
        return false;
    }
    3 + length_of(s) <= s.len()
}

// The content of the field at the front of s: the part after its three-byte head, ending at its length.
pub fn front_content(s: &[u8]) -> &[u8]
    ensures { result.now ≡ content s.now }
{
    keep(skip(s, 3), length_of(s))
}

// What stands behind the field at the front of s.
pub fn after_front(s: &[u8]) -> &[u8]
    ensures { result.now ≡ after s.now }
{
    skip(s, 3 + length_of(s))
}

// The tag of the whole field at the front of s; 0, which is no tag, where there is none, as the rules define it.
pub fn tag_of(s: &[u8]) -> u8
    ensures { result ≡ tag (front s.now) }
{
    if is_whole(s) {
        return front_tag(s);
    }
    0
}

// The text of the field at the front of s: no bytes where it has parts or is not whole. So the rules define it, and an Option would
// only be taken apart again.
pub fn text_of(s: &[u8]) -> &[u8]
    ensures reads { result.now ≡ text (front s.now) }
    ensures shows { result.now ≡ take (length (text (front s.now))) (drop 3 s.now) }
{
    if is_whole(s) & !is_composite(front_tag(s)) {
        return front_content(s);
    }
    &s[..0]
}

// The parts of the field at the front of s: no bytes where it has a text or is not whole. It reads like text_of and promises
// something else, a row of fields: one function of both would promise it with a Bool, and be no plainer.
pub fn parts_of(s: &[u8]) -> &[u8]
    ensures reads { fields result.now ≡ parts (front s.now) }
    ensures shows { result.now ≡ take (sizes (parts (front s.now))) (drop 3 s.now) }
{
    if is_whole(s) & is_composite(front_tag(s)) {
        return front_content(s);
    }
    &s[..0]
}

// s from its n-th field on, counted from 0. The iterator's `nth` would hand on the field alone, and no place where there is none,
// which `shows` speaks of too.
pub fn nth_field(s: &[u8], n: usize) -> &[u8]
    ensures reads { front result.now ≡ nth n (fields s.now) }
    ensures shows { result.now ≡ drop (place_of n (fields s.now)) s.now }
{
    let mut t = s;
    for _ in 0..n {
        if t.is_empty() {
            break;
        }
        t = after_front(t);
    }
    t
}

// The parts of the field at the front of s, from the n-th on.
pub fn part_of(s: &[u8], n: usize) -> &[u8]
    ensures reads { front result.now ≡ part n (front s.now) }
    ensures shows { result.now ≡ drop (place_of n (parts (front s.now))) (take (sizes (parts (front s.now))) (drop 3 s.now)) }
{
    nth_field(parts_of(s), n)
}
