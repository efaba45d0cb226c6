//! Flags of the structs, and sums of flags.

ghost use Rattle.std.specs.Prelude.{◌≡◌, ◌<◌, ◌≤◌, ◌+◌};
ghost use Rattle.sasl_c.specs.Client.{flag_number, is_set};
ghost use Rattle.sasl_c.specs.SaslServer.{one_where, passwords_number};

use fe2o3_sasl_core::PlainPasswords;

/// Returns whether a flag is set: every number but zero sets it.
pub fn is_set(flag: u32) -> bool
    ensures { result ≡ is_set flag }
{
    match flag {
        0 => false,
        _ => true,
    }
}

/// Returns the number that a call writes for a flag.
pub fn flag_number(flag: bool) -> u32
    ensures { result ≡ flag_number flag }
{
    match flag {
        true => 1,
        false => 0,
    }
}

/// Whether a number is in a sum below its double, and the rest.
pub fn split(sum: u32, n: u32) -> (bool, u32)
    requires { sum < n + n }
    ensures sum { sum ≡ one_where result.0 n + result.1 }
    ensures rest { result.1 < n }
{
    if sum < n {
        (false, sum)
    } else {
        (true, sum - n)
    }
}

/// Returns the form of PLAIN's passwords of a sum, and the rest.
pub fn split_passwords(sum: u32) -> (PlainPasswords, u32)
    requires { sum ≤ 383 }
    ensures sum { sum ≡ passwords_number result.0 + result.1 }
    ensures rest { result.1 < 128 }
{
    if sum < 128 {
        (PlainPasswords::Typed, sum)
    } else if sum < 256 {
        (PlainPasswords::Prepared, sum - 128)
    } else {
        (PlainPasswords::Saslprep, sum - 256)
    }
}
