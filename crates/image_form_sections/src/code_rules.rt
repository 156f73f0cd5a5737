//! The rules of functions, places and owners of code words.

ghost use Rattle.std.specs.Prelude.{◌≡◌, ◌+◌, ◌<◌, ◌^◌, IfOk, ⊤};
ghost use Rattle.image_form_sections.specs.Layouts.{HoldsFirstPlaces, rows_in, sections_in};
ghost use Rattle.image_form_sections.specs.Bounds.{word_address};
ghost use Rattle.image_form_sections.specs.TestsOfCode.{function_tests, is_end, is_first, is_first_place, is_frame, is_marked, is_mask, is_owner, is_place_address, owner_tests, place_tests};

use crate::layout::Layout;
use crate::rule::{
    CODE_START, Rule, code_end, is_above, is_code_address, is_in_function, is_not_below, is_place,
    previous,
};
use crate::table::Table;
use std::alloc::{AllocError, Global};
use std::collections::BTreeMap;

/// The rule of functions.
#[derive(Clone, Copy)]
pub struct FunctionRule<'a, 'b> {
    pub layout: &'a Layout<'b>,
}

impl Rule for FunctionRule<'_, '_> {
    ghost tests = { λ rule. function_tests (sections_in rule.layout.now) };

    ghost ready = { λ _. ⊤ };

    fn fault(&self, row: usize) -> Option<usize> {
        let functions = &self.layout.functions;
        let name_length = functions.number(row, 0);
        if name_length < 1 || name_length > 63 {
            Some(0)
        } else if !is_first(self.layout, row) {
            Some(1)
        } else if !is_end(self.layout, row) {
            Some(2)
        } else if !is_frame(functions.number(row, 3)) {
            Some(3)
        } else if !is_place(self.layout, functions.number(row, 4)) || !is_above(functions, 4, row) {
            Some(4)
        } else if !is_mask(functions.number(row, 5)) {
            Some(5)
        } else {
            None
        }
    }
}

/// The registers that keep scalars.
const HOME_REGISTERS: [u32; 15] = [9, 18, 19, 20, 21, 22, 23, 24, 25, 26, 27, 28, 29, 30, 31];

/// Whether the registers of a mask keep scalars.
#[tactic(auto, unfolding(crate::specs::TestsOfCode::is_mask))]
fn is_mask(mask: u32) -> bool
    ensures { result ≡ is_mask mask }
{
    let mut homes: u64 = 0;
    for register in &HOME_REGISTERS {
        let bit = 2u64.pow(*register);
        if mask as u64 / bit % 2 == 1 {
            homes += bit;
        }
    }
    mask as u64 == homes
}

#[tactic(auto, unfolding(crate::specs::TestsOfCode::is_first))]
fn is_first(layout: &Layout<'_>, row: usize) -> bool
    ensures { result ≡ is_first (sections_in layout.now) row }
{
    let first = layout.functions.number(row, 1);
    is_code_address(layout, first) && previous(&layout.functions, 2, 0, row) <= first
}

#[tactic(auto, unfolding(crate::specs::TestsOfCode::is_end))]
fn is_end(layout: &Layout<'_>, row: usize) -> bool
    ensures { result ≡ is_end (sections_in layout.now) row }
{
    let first = layout.functions.number(row, 1);
    let end = layout.functions.number(row, 2);
    end % 4 == 0 && first < end && end as u64 <= code_end(layout)
}

#[tactic(auto, unfolding(crate::specs::TestsOfCode::is_frame))]
fn is_frame(size: u32) -> bool
    ensures { result ≡ is_frame size }
{
    size % 16 == 0 && 16 <= size && size <= 16384
}

/// The first place at each address.
pub fn first_places(alloc: Global, layout: &Layout<'_>) -> Result<BTreeMap<u64, usize>, AllocError>
    ensures { IfOk result (λ firsts. HoldsFirstPlaces firsts (rows_in layout.now.places)) }
{
    let mut places = BTreeMap::new(alloc);
    for place in 0..layout.places.len() {
        let address = layout.places.number(place, 3) as u64;
        if !places.contains_key(&address) {
            places.insert(address, place)?;
        }
    }
    Ok(places)
}

/// The rule of places, which knows the first place at each address.
#[derive(Clone, Copy)]
pub struct PlaceRule<'a, 'b> {
    pub layout: &'a Layout<'b>,
    pub firsts: &'a BTreeMap<u64, usize>,
}

impl Rule for PlaceRule<'_, '_> {
    ghost tests = { λ rule. place_tests (sections_in rule.layout.now) };

    ghost ready = { λ rule. HoldsFirstPlaces rule.firsts.now (rows_in rule.layout.now.places) };

    fn fault(&self, row: usize) -> Option<usize> {
        let places = &self.layout.places;
        let line = places.number(row, 1);
        let function = places.number(row, 2);
        if !is_above(places, 0, row) {
            Some(0)
        } else if line < 1 || !is_not_below(places, 1, row) {
            Some(1)
        } else if function as usize >= self.layout.functions.len()
            || !is_not_below(places, 2, row)
        {
            Some(2)
        } else if !self.is_place_address(row) {
            Some(3)
        } else {
            None
        }
    }
}

impl PlaceRule<'_, '_> {
    #[tactic(auto, unfolding(crate::specs::TestsOfCode::is_place_address))]
    fn is_place_address(&self, row: usize) -> bool
        requires { HoldsFirstPlaces self.now.firsts.now (rows_in self.now.layout.now.places) }
        ensures { result ≡ is_place_address (sections_in self.now.layout.now) row }
    {
        let address = self.layout.places.number(row, 3) as u64;
        let function = self.layout.places.number(row, 2);
        address % 4 == 0
            && is_in_function(self.layout, function, address)
            && self.is_first_place(row, address)
    }

    #[tactic(auto, unfolding(crate::specs::TestsOfCode::is_first_place))]
    fn is_first_place(&self, row: usize, address: u64) -> bool
        requires { HoldsFirstPlaces self.now.firsts.now (rows_in self.now.layout.now.places) }
        ensures { result ≡ is_first_place (sections_in self.now.layout.now) row address }
    {
        match self.firsts.get(&address) {
            Some(first) => *first == row,
            None => false,
        }
    }
}

/// The rule of owners, which knows the place at each address.
#[derive(Clone, Copy)]
pub struct OwnerRule<'a, 'b> {
    pub layout: &'a Layout<'b>,
    pub firsts: &'a BTreeMap<u64, usize>,
}

impl Rule for OwnerRule<'_, '_> {
    ghost tests = { λ rule. owner_tests (sections_in rule.layout.now) };

    ghost ready = { λ rule. HoldsFirstPlaces rule.firsts.now (rows_in rule.layout.now.places) };

    fn fault(&self, row: usize) -> Option<usize> {
        if is_owner(self.layout, row) && self.is_marked(row) {
            None
        } else {
            Some(0)
        }
    }
}

#[tactic(auto, unfolding(crate::specs::TestsOfCode::is_owner, crate::specs::Bounds::first_code_address))]
fn is_owner(layout: &Layout<'_>, word: usize) -> bool
    requires { word < 2 ^ 32 }
    ensures { result ≡ is_owner (sections_in layout.now) word }
{
    let owner = layout.owners.number(word, 0);
    if owner == 0 {
        return true;
    }
    let function = layout.places.number(owner as usize - 1, 2);
    is_place(layout, owner) && is_in_function(layout, function, word_address(word))
}

/// The address of a code word.
#[tactic(auto, unfolding(crate::specs::Bounds::first_code_address))]
fn word_address(word: usize) -> u64
    requires { word < 2 ^ 32 }
    ensures { result ≡ word_address word }
{
    CODE_START + 4 * word as u64
}

impl OwnerRule<'_, '_> {
    #[tactic(auto, unfolding(crate::specs::TestsOfCode::is_marked))]
    fn is_marked(&self, word: usize) -> bool
        requires firsts { HoldsFirstPlaces self.now.firsts.now (rows_in self.now.layout.now.places) }
        requires word { word < 2 ^ 32 }
        ensures { result ≡ is_marked (sections_in self.now.layout.now) word }
    {
        let owner = self.layout.owners.number(word, 0) as usize;
        match self.firsts.get(&word_address(word)) {
            Some(place) => owner != 0 && owner - 1 == *place,
            None => true,
        }
    }
}
