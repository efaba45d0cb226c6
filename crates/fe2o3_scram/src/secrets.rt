//! Owned passwords and keys, whose bytes are overwritten with zeros before their memory is freed.

ghost use Rattle.std.specs.Prelude.{◌≡◌, IfOk, length, replicate};
ghost use Rattle.std.specs.String.{string_bytes};

use crate::OutOfMemory;
use std::alloc::{AllocError, Global};
use std::marker::Model;

/// An owned secret text, for example a password. Its bytes are overwritten with zeros before their memory is freed. It
/// has no `Debug`.
pub struct SecretText {
    text: String,
}

impl Model for SecretText {
    ghost use Rattle.std.specs.Prelude.{ℕ, List};
    ghost use Rattle.std.specs.String.{string_bytes};

    ghost Value = { List ℕ };

    ghost view = { λ secret. string_bytes secret.text };
}

impl SecretText {
    /// Takes this text, without a copy.
    pub fn new(text: String) -> Self
        ensures { result ≡ string_bytes text }
    {
        Self { text }
    }

    /// Copies a text.
    ///
    /// The only error is `OutOfMemory`.
    pub fn from_str(alloc: Global, text: &str) -> Result<Self, OutOfMemory>
        ensures { IfOk result (λ secret. secret ≡ text.now) }
    {
        Ok(Self {
            text: String::from_str(alloc, text)?,
        })
    }

    /// Returns the text.
    pub fn as_str(&self) -> &str
        ensures { result.now ≡ self.now }
    {
        &self.text
    }
}

impl Drop for SecretText {
    fn drop(self) {
        let SecretText { text } = self;
        let mut bytes = text.into_bytes();
        wipe(&mut bytes);
    }
}

impl Clone for SecretText {
    ghost is_clone = { λ original copy. copy ≡ original };

    fn clone(&self) -> Result<Self, AllocError> {
        Ok(Self {
            text: self.text.clone()?,
        })
    }
}

/// Owned secret bytes, for example a key. They are overwritten with zeros before their memory is freed. It has no
/// `Debug`.
pub struct SecretBytes {
    bytes: Vec<u8>,
}

impl Model for SecretBytes {
    ghost use Rattle.std.specs.Prelude.{ℕ, List};

    ghost Value = { List ℕ };

    ghost view = { λ secret. secret.bytes.items };
}

impl SecretBytes {
    /// Takes these bytes, without a copy.
    pub fn new(bytes: Vec<u8>) -> Self
        ensures { result ≡ bytes.items }
    {
        Self { bytes }
    }

    /// Copies bytes.
    ///
    /// The only error is `OutOfMemory`.
    pub fn from_slice(alloc: Global, bytes: &[u8]) -> Result<Self, OutOfMemory>
        ensures { IfOk result (λ secret. secret ≡ bytes.now) }
    {
        Ok(Self {
            bytes: bytes.to_vec(alloc)?,
        })
    }

    /// Returns the bytes.
    pub fn as_slice(&self) -> &[u8]
        ensures { result.now ≡ self.now }
    {
        &self.bytes
    }
}

impl Drop for SecretBytes {
    fn drop(self) {
        let SecretBytes { mut bytes } = self;
        wipe(&mut bytes);
    }
}

impl Clone for SecretBytes {
    ghost is_clone = { λ original copy. copy ≡ original };

    fn clone(&self) -> Result<Self, AllocError> {
        Ok(Self {
            bytes: self.bytes.clone()?,
        })
    }
}

/// Overwrites every byte with zero.
fn wipe(bytes: &mut [u8])
    ensures { bytes.new ≡ replicate (length bytes.old) 0 }
{
    bytes.fill(0);
}
