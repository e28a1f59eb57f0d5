//! The text of a call path.

ghost use Rattle.std.specs.List.{flat_map};
ghost use Rattle.std.specs.Prelude.{◌≡◌, ◌++◌, map, OnOk, IfOk, string_bytes, codes};
ghost use Rattle.lra_report.specs.ReportText as written;
ghost use Rattle.lra_report.specs.View.{call_place_of};

use lra_base::Place;
use std::alloc::{AllocError, Global};

/// A call on the way to a point: the called name and its place.
pub struct CallPlace {
    pub name: String,
    pub place: Place,
}

impl Drop for CallPlace {
    fn drop(self) {
        let CallPlace { name: _, place: _ } = self;
    }
}

/// Appends a call.
fn push_call(text: &mut String, call: &CallPlace) -> Result<(), AllocError>
    ensures { OnOk result (string_bytes text.new ≡ string_bytes text.old ++
        (codes "/" ++ (call_place_of call.now).name ++ codes "@" ++ written.place_text call.now.place)) }
{
    let name = call.name.as_str();
    let line = call.place.line;
    let column = call.place.column;
    write!(text, "/{name}@{line}:{column}")
}

/// The text of the calls that lead to a point, main's first: `main/f@LINE:COLUMN/g@..`.
pub fn path_text(alloc: Global, calls: &[CallPlace]) -> Result<String, AllocError>
    ensures { IfOk result (λ shown. string_bytes shown ≡ written.path_text (map call_place_of calls.now)) }
{
    let mut text = String::from_str(alloc, "main")?;
    for call in calls {
        push_call(&mut text, call)?;
    }
    Ok(text)
}
