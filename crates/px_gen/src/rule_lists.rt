//! The rules of generated runs.
ghost use Rattle.std.specs.Prelude.{◌≡◌, ◌∷◌, [], IfOk, codes, map, string_bytes};
ghost use Rattle.px_rule.specs.View.{body_views, header_views};
ghost use Rattle.px_rule.specs.declared.cause.RuleCause.TheVariants as causes;
ghost use Rattle.px_gen.specs.Rules.{generator_bodies, generator_headers};

use px_rule::{BodyRules, HeaderRules, RuleCause, RuleError};
use px_text::NoMemory;
use std::alloc::Global;

/// The rules of generated runs, read from their texts `/X-Size/` and `/a/bb`: the field X-Size is taken away, and in bodies `bb` is put in
/// the place of each `a`.
pub fn rules(alloc: Global) -> Result<(HeaderRules, BodyRules), NoMemory>
    ensures headers { IfOk result (λ made. header_views made.0 ≡ generator_headers) }
    ensures bodies { IfOk result (λ made. body_views made.1 ≡ generator_bodies) }
{
    let headers = headers(alloc)?;
    let bodies = bodies(alloc)?;
    Ok((headers, bodies))
}

fn headers(alloc: Global) -> Result<HeaderRules, NoMemory>
    ensures { IfOk result (λ rules. header_views rules ≡ generator_headers) }
{
    let texts = one_text(alloc, "/X-Size/")?;
    match HeaderRules::read(alloc, &texts) {
        Ok(rules) => Ok(rules),
        Err(error) => Err(no_memory(error)),
    }
}

fn bodies(alloc: Global) -> Result<BodyRules, NoMemory>
    ensures { IfOk result (λ rules. body_views rules ≡ generator_bodies) }
{
    let texts = one_text(alloc, "/a/bb")?;
    match BodyRules::read(alloc, &texts) {
        Ok(rules) => Ok(rules),
        Err(error) => Err(no_memory(error)),
    }
}

// A list of one text.
fn one_text(alloc: Global, text: &str) -> Result<Vec<String>, NoMemory>
    ensures { IfOk result (λ texts. map string_bytes texts.items ≡ text.now ∷ []) }
{
    let mut texts = Vec::new(alloc);
    texts.push(String::from_str(alloc, text)?)?;
    Ok(texts)
}

// Texts that are rules are refused when out of memory alone.
fn no_memory(error: RuleError) -> NoMemory
    requires { error.cause ≡ causes.NoMemory }
{
    match error.cause {
        RuleCause::NoMemory => NoMemory,
        _ => unreachable!(),
    }
}
