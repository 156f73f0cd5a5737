//! The stop places of an image by code word.

ghost use Rattle.std.specs.Prelude.{◌≡◌, ℕ, ◌-◌, ◌/◌, ◌≤◌, true, false, if◌then◌else◌, IfOk, IfSome, IfNone, length, slice_index, unwrap_or};
ghost use Rattle.image_form.specs.Rules.{IsImage};
ghost use Rattle.image_form.specs.RulesOfPlaces.{word_address};
ghost use Rattle.image_form.specs.Views.{viewed};
ghost use Rattle.memory_map.specs.Maps.{code_start};
ghost use Rattle.rv_machine.specs.Run.{is_stop};
ghost use Rattle.stop_engine.specs.StopTable.{entry_at, is_entry_address};
ghost use Rattle.stop_engine_view.specs.Reading.{place_at};
ghost use Rattle.stop_engine_view.specs.Run.{stop_addresses};

use image_form::View;
use memory_map::CODE_START;
use std::alloc::{AllocError, Global};
use std::marker::Model;

/// An image with a table of its stop places, which finds the place of an address by one look-up.
#[derive(Drop)]
pub struct StopTable<'a> {
    image: View<'a>,
    /// For each code word the number of the stop place that begins there, or 0.
    places: Vec<u32>,
}

impl<'a> Model for StopTable<'a> {
    ghost use Rattle.image_form.specs.Form.{Form};
    ghost use Rattle.image_form.specs.Views.{viewed};
    ghost use Rattle.stop_engine.specs.StopTable.{TellsStops};

    ghost Value = { Form };

    ghost view = { λ t. viewed t.image };

    ghost invariant = { λ t. TellsStops (viewed t.image) t.places.items };
}

impl<'a> StopTable<'a> {
    /// The table of an image.
    pub fn new(alloc: Global, image: &View<'a>) -> Result<StopTable<'a>, AllocError>
        requires { IsImage (viewed image.now) }
        ensures { IfOk result (λ table. table ≡ viewed image.now) }
    {
        let mut places = vec![in alloc; 0; image.code_count()]?;
        enter_places(image, &mut places);
        strike_entries(image, &mut places);
        Ok(StopTable {
            image: *image,
            places,
        })
    }

    /// The image.
    pub fn image(&self) -> View<'a>
        ensures { viewed result ≡ self.now }
    {
        self.image
    }

    /// The number of the place that begins at an address, if it is a stop.
    pub fn stop_at(&self, address: u32) -> Option<u32>
        ensures stop { IfSome result (λ place. is_stop (stop_addresses self.now) address ≡ true) }
        ensures place { IfSome result (λ place. place_at self.now address ≡ Some place) }
        ensures none { IfNone result (is_stop (stop_addresses self.now) address ≡ false) }
    {
        let place = entry_at(&self.places, address);
        if place == 0 { None } else { Some(place) }
    }
}

/// Enters each place of the image, by its number, where its first code word stands.
fn enter_places(image: &View<'_>, table: &mut [u32])
    requires image { IsImage (viewed image.now) }
    requires entries { length table.old ≡ length (viewed image.now).code }
    ensures { (w : ℕ)
        → slice_index table.new w ≡ unwrap_or (place_at (viewed image.now) (word_address w)) (slice_index table.old w) }
{
    for i in 0..image.place_count() {
        let place = image.place_at(i);
        table[word_of(place.address)] = i as u32 + 1;
    }
}

/// Strikes the entries of functions, at which no run stops.
fn strike_entries(image: &View<'_>, table: &mut [u32])
    requires image { IsImage (viewed image.now) }
    requires entries { length table.old ≡ length (viewed image.now).code }
    ensures { (w : ℕ)
        → slice_index table.new w ≡
        (if is_entry_address (viewed image.now) (word_address w) then 0 else slice_index table.old w) }
{
    for i in 0..image.function_count() {
        let function = image.function_at(i);
        let place = image.place_at(function.entry as usize - 1);
        table[word_of(place.address)] = 0;
    }
}

/// The index of the code word at an address.
fn word_of(address: u32) -> usize
    requires { code_start ≤ address }
    ensures { result ≡ (address - code_start) / 4 }
{
    ((address - CODE_START) / 4) as usize
}

/// What a table with an entry for each code word has at an address, and 0 where no word begins there.
fn entry_at(table: &[u32], address: u32) -> u32
    ensures { result ≡ entry_at table.now address }
{
    if address % 4 != 0 {
        return 0;
    }
    if address < CODE_START {
        return 0;
    }
    let word = (address - CODE_START) / 4;
    table.get(word as usize).copied().unwrap_or(0)
}
