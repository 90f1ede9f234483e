ghost use Rattle.std.specs.Prelude.{◌≡◌, ◌<◌, ◌^◌, IfSome, map};
ghost use Rattle.std.specs.List.{list_all};
ghost use Rattle.command_line.specs.Parts.{pair_of};
ghost use Rattle.command_line.specs.Words as spec;

use crate::command::Settings;
use crate::numbers::{Allowed, read_number};

fn is_known(name: &str) -> bool
    ensures { result ≡ spec.is_known name.now }
{
    name == "workers" || name == "cache" || name == "rows" || name == "steps" || name == "slevel"
}

fn are_known(given: &[(&str, &str)]) -> bool
    ensures { result ≡ list_all (λ g. spec.is_known g.0) (map pair_of given.now) }
{
    match given {
        [] => true,
        [first, rest @ ..] => is_known(first.0) && are_known(rest),
    }
}

/// Whether the option isn't given.
fn is_absent(given: &[(&str, &str)], name: &str) -> bool
    ensures { result ≡ spec.is_absent name.now (map pair_of given.now) }
{
    match given {
        [] => true,
        [first, rest @ ..] => first.0 != name && is_absent(rest, name),
    }
}

/// The number of an option, its default where it isn't given; `None` where it has none or is given twice.
fn option_value(given: &[(&str, &str)], name: &str, allowed: Allowed, default: u64) -> Option<u64>
    requires most { allowed.most < 2 ^ 32 }
    requires default { default < 2 ^ 32 }
    ensures value { result ≡ spec.option_value (map pair_of given.now) name.now allowed default }
    ensures few { IfSome result (λ n. n < 2 ^ 32) }
{
    match given {
        [] => Some(default),
        [first, rest @ ..] => {
            if first.0 == name {
                if is_absent(rest, name) {
                    read_number(10, allowed, first.1)
                } else {
                    None
                }
            } else {
                option_value(rest, name, allowed, default)
            }
        }
    }
}

const fn range(least: u64, most: u64) -> Allowed
    ensures { result ≡ spec.range least most }
{
    Allowed {
        zero: false,
        least,
        most,
    }
}

/// The settings that the options give; `None` where they have no meaning.
pub fn read_settings(given: &[(&str, &str)]) -> Option<Settings>
    ensures { result ≡ spec.settings_of (map pair_of given.now) }
{
    if !are_known(given) {
        return None;
    }
    let cache = Allowed {
        zero: true,
        least: 4,
        most: 16,
    };
    let workers = option_value(given, "workers", range(1, 64), 4)?;
    let cache_log = option_value(given, "cache", cache, 12)?;
    let rows_log = option_value(given, "rows", range(10, 20), 16)?;
    let steps = option_value(given, "steps", range(1, 1_000_000_000), 1_000_000)?;
    let slevel = option_value(given, "slevel", range(0, 200), 0)?;
    Some(Settings {
        workers: workers as u32,
        cache_log: cache_log as u32,
        rows_log: rows_log as u32,
        steps,
        slevel: slevel as u32,
    })
}
