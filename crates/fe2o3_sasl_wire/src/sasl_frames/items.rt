//! The items of a list, read from the first on. Nothing here allocates.

ghost use Rattle.std.specs.Prelude.{◌≡◌, ◌≤◌, ◌-◌, Some, None, option_map, length, ◌==◌, ◌&&◌, if◌then◌else◌};
ghost use Rattle.fe2o3_sasl_wire.specs.private.Reading.{required, optional_at, binary_at, symbol_at, string_at, symbols_at, code_at, list_at, null_at, ended};

use crate::amqp_types::SaslCode;
use crate::sasl_frames::forms::{LIST_0, LIST_8, LIST_32, NULL};
use crate::sasl_frames::reading::{
    binary_at, byte_at, code_at, content_at, form_at, number_at, string_at, symbol_at,
};
use crate::sasl_frames::symbols_view::{SymbolsView, symbols_at};
use std::marker::Model;

/// Returns the bytes after a null.
fn null_at(bytes: &[u8]) -> Option<&[u8]>
    ensures { option_map (λ x. x.now) result ≡ null_at bytes.now }
{
    match bytes {
        [NULL, rest @ ..] => Some(rest),
        _ => None,
    }
}

/// The items of a list that are not read yet.
#[derive(Drop)]
pub(crate) struct Items<'a> {
    count: u32,
    bytes: &'a [u8],
}

impl<'a> Model for Items<'a> {
    ghost use Rattle.std.specs.Prelude.{List, ℕ};

    ghost Value = { ℕ × List ℕ };

    ghost view = { λ items. (items.count, items.bytes.now) };
}

/// Reads a list.
#[inline(always)]
#[tactic(auto, unfolding(crate::specs::private::Reading::list_at))]
pub(crate) fn list_at(bytes: &[u8]) -> Option<(Items<'_>, &[u8])>
    ensures { option_map (λ x. (x.0, x.1.now)) result ≡ list_at bytes.now }
{
    let (constructor, rest) = byte_at(bytes)?;
    if constructor == LIST_0 {
        return Some((
            Items {
                count: 0,
                bytes: &[],
            },
            rest,
        ));
    }
    let form = form_at(LIST_8, LIST_32, constructor)?;
    let (inner, after) = content_at(form, rest)?;
    let (count, bytes) = number_at(form, inner)?;
    Some((Items { count, bytes }, after))
}

impl<'a> Items<'a> {
    /// Moves past an item that these bytes follow.
    #[inline(always)]
    fn pass(&mut self, rest: &'a [u8])
        requires { 1 ≤ self.old.0 }
        ensures { self.new ≡ (self.old.0 - 1, rest.now) }
    {
        self.count -= 1;
        self.bytes = rest;
    }

    /// Returns the next item, which must be a binary.
    #[inline(always)]
    #[tactic(auto, unfolding(crate::specs::private::Reading::required))]
    pub(crate) fn binary(&mut self) -> Option<&'a [u8]>
        ensures { option_map (λ x. (x.now, self.new)) result ≡ required binary_at self.old }
    {
        if self.count == 0 {
            return None;
        }
        let (value, rest) = binary_at(self.bytes)?;
        self.pass(rest);
        Some(value)
    }

    /// Returns the next item, which must be an outcome's code.
    #[inline(always)]
    #[tactic(auto, unfolding(crate::specs::private::Reading::required))]
    pub(crate) fn code(&mut self) -> Option<SaslCode>
        ensures { option_map (λ x. (x, self.new)) result ≡ required code_at self.old }
    {
        if self.count == 0 {
            return None;
        }
        let (value, rest) = code_at(self.bytes)?;
        self.pass(rest);
        Some(value)
    }

    /// Returns the next item, which must be a symbol.
    #[inline(always)]
    #[tactic(auto, unfolding(crate::specs::private::Reading::required))]
    pub(crate) fn symbol(&mut self) -> Option<&'a str>
        ensures { option_map (λ x. (x.now, self.new)) result ≡ required symbol_at self.old }
    {
        if self.count == 0 {
            return None;
        }
        let (value, rest) = symbol_at(self.bytes)?;
        self.pass(rest);
        Some(value)
    }

    /// Returns the next item, which must be an array of symbols or one symbol.
    #[inline(always)]
    #[tactic(auto, unfolding(crate::specs::private::Reading::required))]
    pub(crate) fn symbols(&mut self) -> Option<SymbolsView<'a>>
        ensures { option_map (λ x. (x, self.new)) result ≡ required symbols_at self.old }
    {
        if self.count == 0 {
            return None;
        }
        let (value, rest) = symbols_at(self.bytes)?;
        self.pass(rest);
        Some(value)
    }

    /// Returns the next item, which may be a binary, null or absent.
    #[inline(always)]
    #[tactic(auto, unfolding(crate::specs::private::Reading::optional_at))]
    pub(crate) fn optional_binary(&mut self) -> Option<Option<&'a [u8]>>
        ensures { option_map (λ x. (option_map (λ y. y.now) x, self.new)) result
            ≡ optional_at binary_at self.old }
    {
        if self.count == 0 {
            return Some(None);
        }
        if let Some(rest) = null_at(self.bytes) {
            self.pass(rest);
            return Some(None);
        }
        let (value, rest) = binary_at(self.bytes)?;
        self.pass(rest);
        Some(Some(value))
    }

    /// Returns the next item, which may be a string, null or absent.
    #[inline(always)]
    #[tactic(auto, unfolding(crate::specs::private::Reading::optional_at))]
    pub(crate) fn optional_string(&mut self) -> Option<Option<&'a str>>
        ensures { option_map (λ x. (option_map (λ y. y.now) x, self.new)) result
            ≡ optional_at string_at self.old }
    {
        if self.count == 0 {
            return Some(None);
        }
        if let Some(rest) = null_at(self.bytes) {
            self.pass(rest);
            return Some(None);
        }
        let (value, rest) = string_at(self.bytes)?;
        self.pass(rest);
        Some(Some(value))
    }

    /// Succeeds if no item and no byte is left.
    pub(crate) fn end(self) -> Option<()>
        ensures { option_map (λ _. tt) result ≡ ended self.entry }
    {
        if self.count == 0 && self.bytes.is_empty() {
            Some(())
        } else {
            None
        }
    }
}
