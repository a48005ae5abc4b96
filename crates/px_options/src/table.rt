//! The table of a text, and the options that it is.
ghost use Rattle.std.specs.Prelude.{◌≡◌, ◌⊎◌, Some, Ok, Err, IfOk, IfErr, OnOk};
ghost use Rattle.std.specs.BTreeMap.{IsOrdered};
ghost use Rattle.std.specs.Str.{IsUtf8};
ghost use Rattle.std.specs.String.{string_cmp};
ghost use Rattle.toml.specs.Parse.{parse_document};
ghost use Rattle.toml.specs.View.{table_view};
ghost use Rattle.px_options.specs.Gathered.{gathered};
ghost use Rattle.px_options.specs.Options.{IsNoTable, options_of};
ghost use Rattle.px_options.specs.View.{settings};
ghost use Rattle.px_options.specs.declared.error.OptionsError.TheVariants as error;

use crate::defaults::defaults;
use crate::put::put_named;
use crate::{Options, OptionsError};
use std::alloc::Global;
use toml::Table;

/// The table that the bytes are.
pub(crate) fn read_table(alloc: Global, bytes: &[u8]) -> Result<Table, OptionsError>
    ensures ok { IfOk result (λ t. IsUtf8 bytes.now × (parse_document bytes.now ≡ Some (table_view t))) }
    ensures err { IfErr result (λ e. (e ≡ error.NoMemory) ⊎ ((e ≡ error.BadToml) × IsNoTable bytes.now)) }
{
    match toml::table_from_slice(alloc, bytes) {
        Ok(table) => Ok(table),
        Err(e) => {
            if e.is_memory() {
                Err(OptionsError::NoMemory)
            } else {
                Err(OptionsError::BadToml)
            }
        }
    }
}

/// The options that the table is.
pub(crate) fn options_of(alloc: Global, table: &Table) -> Result<Options, OptionsError>
    ensures ok { IfOk result (λ o. options_of (table_view table.now) ≡ Ok (settings o)) }
    ensures err { IfErr result (λ e. (e ≡ error.NoMemory) ⊎ (options_of (table_view table.now) ≡ Err e)) }
{
    let mut options = defaults(alloc)?;
    match gather(alloc, &mut options, table) {
        Ok(()) => Ok(options),
        Err(e) => Err(e),
    }
}

// Puts the option of each key of the table, in their order.
fn gather(alloc: Global, options: &mut Options, table: &Table) -> Result<(), OptionsError>
    ensures ordered { IsOrdered string_cmp table.now }
    ensures ok { OnOk result (gathered (table_view table.now) (settings options.old) ≡ Ok (settings options.new)) }
    ensures err { IfErr result (λ e. (e ≡ error.NoMemory) ⊎ (gathered (table_view table.now) (settings options.old) ≡ Err e)) }
{
    for (name, value) in table.iter() {
        match put_named(alloc, options, name.as_bytes(), value) {
            Ok(()) => {}
            Err(e) => return Err(e),
        }
    }
    Ok(())
}
