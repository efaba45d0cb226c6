//! The symbols of a mechanisms frame, read in place. Nothing here allocates.

ghost use Rattle.std.specs.Prelude.{◌≡◌, ◌↔◌, [], Some, option_map, length, slice_get, IfSome, IsAscii, IsTrue, Contains};
ghost use Rattle.std.specs.List.{AllByRecursion};
ghost use Rattle.fe2o3_sasl_wire.specs.private.Reading.{elements_at, element_at, array_at, one_at, symbols_at};

use crate::sasl_frames::forms::{ARRAY_8, ARRAY_32, Form, SYMBOL_8, SYMBOL_32};
use crate::sasl_frames::reading::{
    byte_at, content_at, element_at, element_rest, form_at, number_at,
};
use std::fmt;
use std::marker::Model;

/// The symbols of a mechanisms frame (AMQP 1.0, part 5, section 5.3.3.1), borrowed from its body.
#[derive(Drop)]
pub struct SymbolsView<'a> {
    form: Form,
    count: u32,
    elements: &'a [u8],
}

impl<'a> Model for SymbolsView<'a> {
    ghost use Rattle.std.specs.Prelude.{List, ℕ, IsSome};
    ghost use Rattle.fe2o3_sasl_wire.specs.private.Reading.{elements_at, names_in};

    ghost Value = { List (List ℕ) };

    ghost view = { λ symbols. names_in (elements_at symbols.form symbols.count symbols.elements.now) };

    ghost invariant = { λ symbols. IsSome (elements_at symbols.form symbols.count symbols.elements.now) };
}

impl fmt::Debug for SymbolsView<'_> {
    fn fmt<W: fmt::Write>(&self, f: &mut fmt::Formatter<W>) -> fmt::Result {
        f.debug_list().entries(self.iter()).finish()
    }
}

/// Returns the bytes after this many elements.
#[inline(always)]
fn elements_rest(form: Form, count: u32, bytes: &[u8]) -> Option<&[u8]>
    ensures { option_map (λ x. x.now) result ≡ option_map (λ x. x.1) (elements_at form count bytes.now) }
{
    let mut rest = bytes;
    for _ in 0..count {
        let after = element_rest(form, rest)?;
        rest = after;
    }
    Some(rest)
}

/// Reads this many elements.
#[inline(always)]
pub(crate) fn elements_at(
    form: Form,
    count: u32,
    elements: &[u8],
) -> Option<(SymbolsView<'_>, &[u8])>
    ensures { option_map (λ x. (x.0, x.1.now)) result ≡ elements_at form count elements.now }
{
    let rest = elements_rest(form, count, elements)?;
    Some((
        SymbolsView {
            form,
            count,
            elements,
        },
        rest,
    ))
}

impl<'a> SymbolsView<'a> {
    /// Returns how many symbols there are.
    pub fn len(&self) -> usize
        ensures { result ≡ length self.now }
    {
        self.count as usize
    }

    /// Returns whether there is no symbol.
    pub fn is_empty(&self) -> bool
        ensures { IsTrue result ↔ (self.now ≡ []) }
    {
        self.count == 0
    }

    /// Returns an iterator over the symbols, in order. Each step takes one symbol's time.
    pub fn iter(&self) -> SymbolsIter<'a>
        ensures symbols { result ≡ self.now }
        ensures ascii { AllByRecursion IsAscii self.now }
    {
        SymbolsIter {
            form: self.form,
            count: self.count,
            elements: self.elements,
        }
    }

    /// Returns the symbol at an index, from 0, or None at `len` and above. The call reads all symbols before it: `iter`
    /// walks them in one pass.
    pub fn get(&self, index: usize) -> Option<&'a str>
        ensures value { option_map (λ x. x.now) result ≡ slice_get self.now index }
        ensures ascii { IfSome result (λ x. IsAscii x.now) }
    {
        let mut rest = self.elements;
        for at in 0..self.count {
            let (symbol, after) = element_at(self.form, rest)?;
            if at as usize == index {
                return Some(symbol);
            }
            rest = after;
        }
        None
    }

    /// Returns whether a symbol is this text.
    pub fn contains(&self, name: &str) -> bool
        ensures { IsTrue result ↔ Contains self.now name.now }
    {
        let mut rest = self.elements;
        for _ in 0..self.count {
            let Some((symbol, after)) = element_at(self.form, rest) else {
                unreachable!()
            };
            if symbol == name {
                return true;
            }
            rest = after;
        }
        false
    }
}

/// An iterator over the symbols of a view. It keeps only the bytes of the rest.
#[derive(Drop)]
pub struct SymbolsIter<'a> {
    form: Form,
    count: u32,
    elements: &'a [u8],
}

impl<'a> Model for SymbolsIter<'a> {
    ghost use Rattle.std.specs.Prelude.{List, ℕ, IsSome};
    ghost use Rattle.fe2o3_sasl_wire.specs.private.Reading.{elements_at, names_in};

    ghost Value = { List (List ℕ) };

    ghost view = { λ symbols. names_in (elements_at symbols.form symbols.count symbols.elements.now) };

    ghost invariant = { λ symbols. IsSome (elements_at symbols.form symbols.count symbols.elements.now) };
}

impl<'a> Iterator for SymbolsIter<'a> {
    ghost use Rattle.std.specs.Iterator.{YieldsFirstRef, item_count};

    type Item = &'a str;

    ghost next_gives = { YieldsFirstRef (λ left. left) };

    ghost remaining = { item_count (λ left. left) };

    fn next(&mut self) -> Option<&'a str> {
        if self.count == 0 {
            return None;
        }
        let Some((symbol, after)) = element_at(self.form, self.elements) else {
            unreachable!()
        };
        self.count -= 1;
        self.elements = after;
        Some(symbol)
    }
}

/// Reads an array after its constructor.
#[inline(always)]
#[tactic(auto, unfolding(crate::specs::private::Reading::array_at))]
fn array_at(form: Form, bytes: &[u8]) -> Option<(SymbolsView<'_>, &[u8])>
    ensures { option_map (λ x. (x.0, x.1.now)) result ≡ array_at form bytes.now }
{
    let (inner, after) = content_at(form, bytes)?;
    let (count, inner) = number_at(form, inner)?;
    let (constructor, inner) = byte_at(inner)?;
    let element = form_at(SYMBOL_8, SYMBOL_32, constructor)?;
    let (symbols, left) = elements_at(element, count, inner)?;
    if !left.is_empty() {
        return None;
    }
    Some((symbols, after))
}

/// Reads a list of one symbol, after the symbol's constructor.
#[inline(always)]
#[tactic(auto, unfolding(crate::specs::private::Reading::one_at))]
fn one_at(form: Form, bytes: &[u8]) -> Option<(SymbolsView<'_>, &[u8])>
    ensures { option_map (λ x. (x.0, x.1.now)) result ≡ one_at form bytes.now }
{
    elements_at(form, 1, bytes)
}

/// Reads an array of symbols, or one symbol.
#[inline(always)]
#[tactic(auto, unfolding(crate::specs::private::Reading::symbols_at))]
pub(crate) fn symbols_at(bytes: &[u8]) -> Option<(SymbolsView<'_>, &[u8])>
    ensures { option_map (λ x. (x.0, x.1.now)) result ≡ symbols_at bytes.now }
{
    let (constructor, rest) = byte_at(bytes)?;
    match constructor {
        ARRAY_8 => array_at(Form::Eight, rest),
        ARRAY_32 => array_at(Form::ThirtyTwo, rest),
        _ => {
            let form = form_at(SYMBOL_8, SYMBOL_32, constructor)?;
            one_at(form, rest)
        }
    }
}
