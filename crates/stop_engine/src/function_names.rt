//! The functions of an image by their names.

ghost use Rattle.std.specs.Prelude.{◌≡◌, IfOk};
ghost use Rattle.image_form.specs.Rules.{IsImage};
ghost use Rattle.image_form.specs.Views.{viewed};
ghost use Rattle.stop_engine.specs.FunctionNames.{AreFunctionNamesOf};
ghost use Rattle.stop_engine_tables.specs.Tables.{AreTablesOf};

use image_form::View;
use std::alloc::{AllocError, Global};
use std::collections::BTreeMap;
use stop_engine_tables::Tables;

/// The functions of an image by their names.
#[derive(Drop)]
pub struct FunctionNames<'a> {
    /// The number of the first function of each name.
    pub first: BTreeMap<&'a [u8], usize>,
}

/// The functions of an image by their names. `AllocError` where memory for them was refused.
pub fn function_names<'a>(
    alloc: Global,
    image: &View<'a>,
    tables: &Tables,
) -> Result<FunctionNames<'a>, AllocError>
    requires image { IsImage (viewed image.now) }
    requires tables { AreTablesOf (viewed image.now) tables.now }
    ensures { IfOk result (AreFunctionNamesOf (viewed image.now)) }
{
    let mut first = BTreeMap::new(alloc);
    for number in 0..image.function_count() {
        let name = tables.names.function(image, number);
        if !first.contains_key(name) {
            first.insert(name, number)?;
        }
    }
    Ok(FunctionNames { first })
}
