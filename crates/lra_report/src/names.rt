//! Names of variables, as they are printed.

ghost use Rattle.std.specs.List.{count_by};
ghost use Rattle.std.specs.Prelude.{◌≡◌, ◌++◌, ◌∷◌, [], map, OnOk, IfOk, string_bytes, bytes_eq};
ghost use Rattle.lra_resolution_spec.specs.ShownNames.{shown_name, shown_names};

use lra_row_text::Names;
use std::alloc::{AllocError, Global};

/// Adds the text of a name that so many newer variables of the name hide.
fn push_shown(alloc: Global, shown: &mut Names, name: &str, hiding: usize) -> Result<(), AllocError>
    ensures { OnOk result (shown.new ≡ shown.old ++ shown_name hiding name.now ∷ []) }
{
    if hiding == 0 {
        return shown.push(name);
    }
    let text = format!(in alloc; "{name}~{hiding}")?;
    shown.push(text.as_str())
}

/// How many of the names are this one.
fn count_of(name: &str, names: &[String]) -> usize
    ensures { result ≡ count_by (bytes_eq name.now) (map string_bytes names.now) }
{
    names.iter().filter(|other| name == other.as_str()).count()
}

/// The names as they are printed: a variable that `k` newer variables of its name hide is `NAME~k`.
pub fn names_at(alloc: Global, live: &Names) -> Result<Names, AllocError>
    ensures { IfOk result (λ shown. shown ≡ shown_names live.now) }
{
    let mut shown = Names::new(alloc);
    let texts = live.texts();
    for (index, name) in texts.iter().enumerate() {
        let hiding = count_of(name.as_str(), &texts[index + 1..]);
        push_shown(alloc, &mut shown, name.as_str(), hiding)?;
    }
    Ok(shown)
}
