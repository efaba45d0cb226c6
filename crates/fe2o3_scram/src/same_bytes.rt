//! The comparison of secrets.

ghost use Rattle.std.specs.Prelude.{◌≡◌, ◌↔◌, IsTrue, length};

/// Returns whether the two are the same bytes. Two of one length are compared over the whole length, whatever the bytes
/// are; no claim is made about time.
pub(crate) fn same_bytes(left: &[u8], right: &[u8]) -> bool
    ensures { IsTrue result ↔ (left.now ≡ right.now) }
{
    left.len() == right.len() && turned_bits(left, right) == 0
}

/// Returns the bits that differ anywhere in two texts of one length.
fn turned_bits(left: &[u8], right: &[u8]) -> u8
    requires { length left.now ≡ length right.now }
    ensures { (result ≡ 0) ↔ (left.now ≡ right.now) }
{
    let mut turned = 0;
    for at in 0..left.len() {
        turned |= left[at] ^ right[at];
    }
    turned
}
