// SPDX-License-Identifier: Apache-2.0 OR MIT
// Whether two tokens differ. A token is a part of the file, and no token is the empty part.
ghost use Rattle.std.specs.Prelude.{◌≡◌};
ghost use Rattle.tokens.specs.Tokens.{differ};

use fields::bytes::same_bytes;

// Whether both tokens are known and they differ.
pub fn tokens_differ(a: &[u8], b: &[u8]) -> bool
    ensures { result ≡ differ a.now b.now }
{
    if a.len() == 0 {
        return false;
    }
    if b.len() == 0 {
        return false;
    }
    !same_bytes(a, b)
}
