//! Lists of names.
ghost use Rattle.std.specs.Prelude.{◌≡◌, ◌⊎◌, Ok, Err, IfOk, IfErr, map, string_bytes};
ghost use Rattle.toml.specs.View.{view};
ghost use Rattle.px_options.specs.Replay.{texts};
ghost use Rattle.px_options.specs.declared.error.OptionsError.TheVariants as error;

use crate::OptionsError;
use crate::key::Key;
use crate::texts::read_texts;
use px_replay::Names;
use px_text::{Bytes, NoMemory};
use std::alloc::Global;
use toml::Value;

/// The names that a value is.
pub(crate) fn read_names(alloc: Global, key: Key, value: &Value) -> Result<Names, OptionsError>
    ensures ok { IfOk result (λ names. texts key (view value.now) ≡ Ok names) }
    ensures err { IfErr result (λ e. (e ≡ error.NoMemory) ⊎ (texts key (view value.now) ≡ Err e)) }
{
    let texts = read_texts(alloc, key, value)?;
    Ok(names_of(alloc, &texts)?)
}

// The names that these texts are.
fn names_of(alloc: Global, texts: &[String]) -> Result<Names, NoMemory>
    ensures { IfOk result (λ names. names ≡ map string_bytes texts.now) }
{
    let mut items = Vec::new(alloc);
    for text in texts {
        items.push(Bytes::copied(alloc, text.as_bytes())?)?;
    }
    Ok(Names::new(items))
}
