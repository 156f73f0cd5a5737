//! The names of an image.

ghost use Rattle.std.specs.Prelude.{◌≡◌, ◌≤◌, ◌+◌, length, drop, take};
ghost use Rattle.image_form.specs.Views.{viewed};

use image_form::View;

/// The name that starts there among the names of an image, of so many bytes.
pub fn name_at<'a>(image: &View<'a>, start: usize, count: u32) -> &'a [u8]
    requires { start + count ≤ length (viewed image.now).names }
    ensures { result.now ≡ take count (drop start (viewed image.now).names) }
{
    &image.names()[start..start + count as usize]
}
