// A byte or a part of a slice, for any index: past the end there are no more bytes.
ghost use Rattle.std.specs.Prelude.{◌≡◌, ◌≤◌, get_or, length, take, drop};
ghost use Rattle.laws.specs.Texts.{same_bytes};
ghost use Rattle.fields.specs.Number.{front_pair, front_quad, front_word};

// The byte at i; 0 past the end.
pub fn byte_at(s: &[u8], i: usize) -> u8
    ensures { result ≡ get_or s.now i 0 }
{
    s.get(i).copied().unwrap_or(0)
}

// s without its first n elements.
pub fn skip<T>(s: &[T], n: usize) -> &[T]
    ensures { result.now ≡ drop n s.now }
{
    s.get(n..).unwrap_or_default()
}

// The first n elements of s, or all where there are fewer.
pub fn keep<T>(s: &[T], n: usize) -> &[T]
    ensures { result.now ≡ take n s.now }
{
    s.get(..n).unwrap_or(s)
}

// Whether two texts are the same. Every comparison of names is this one, or the next.
pub fn same_bytes(a: &[u8], b: &[u8]) -> bool
    ensures { result ≡ same_bytes a.now b.now }
{
    a == b
}

// The same without a call: the first four bytes by one step, eight by each that follows, and what is behind them by at most three. It is
// for a loop that compares one name with many, of which most differ early.
#[inline(always)]
pub fn same_in_steps(a: &[u8], b: &[u8]) -> bool
    ensures { result ≡ same_bytes a.now b.now }
{
    if a.len() != b.len() {
        return false;
    }
    if a.len() <= 3 {
        return same_three(a, b);
    }
    if front_quad(a) != front_quad(b) {
        return false;
    }
    let mut i = 4;
    while 8 <= a.len() - i {
        if front_word(&a[i..]) != front_word(&b[i..]) {
            return false;
        }
        i += 8;
    }
    same_seven(&a[i..], &b[i..])
}

// The same of two texts of at most seven bytes, as many in both.
#[inline(always)]
fn same_seven(a: &[u8], b: &[u8]) -> bool
    requires { (length a.now ≡ length b.now) × (length a.now ≤ 7) }
    ensures { result ≡ same_bytes a.now b.now }
{
    if 4 <= a.len() {
        if front_quad(a) != front_quad(b) {
            return false;
        }
        return same_three(&a[4..], &b[4..]);
    }
    same_three(a, b)
}

// The same of two texts of at most three bytes, as many in both.
#[inline(always)]
fn same_three(a: &[u8], b: &[u8]) -> bool
    requires { (length a.now ≡ length b.now) × (length a.now ≤ 3) }
    ensures { result ≡ same_bytes a.now b.now }
{
    if 2 <= a.len() {
        if front_pair(a) != front_pair(b) {
            return false;
        }
        return a.len() == 2 || a[2] == b[2];
    }
    a.len() == 0 || a[0] == b[0]
}

// The first two bytes as a number, least significant first; 0 where there are fewer. Texts that begin with the same two bytes have the
// same, and to compare it takes one step.
#[inline(always)]
fn front_pair(s: &[u8]) -> u16
    ensures { result ≡ front_pair s.now }
{
    match s.first_chunk::<2>() {
        Some(bytes) => u16::from_le_bytes(*bytes),
        None => 0,
    }
}

// The same of the first four.
#[inline(always)]
fn front_quad(s: &[u8]) -> u32
    ensures { result ≡ front_quad s.now }
{
    match s.first_chunk::<4>() {
        Some(bytes) => u32::from_le_bytes(*bytes),
        None => 0,
    }
}

// The same of the first eight. One function of the three would be made for a type of number, and the types have no trait for it.
#[inline(always)]
fn front_word(s: &[u8]) -> u64
    ensures { result ≡ front_word s.now }
{
    match s.first_chunk::<8>() {
        Some(bytes) => u64::from_le_bytes(*bytes),
        None => 0,
    }
}
