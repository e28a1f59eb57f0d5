//! Laws: each of these does nothing, and its contract is the theorem.

ghost use Rattle.lra_report_build.specs.Crates.lra_box.Abstraction.{box_abstraction};
ghost use Rattle.lra_report_build.specs.Crates.lra_options.declared.options.Domain.TheVariants.{Box, Oct};
ghost use Rattle.lra_octagon.specs.Abstraction.{octagon_abstraction};
ghost use Rattle.lra_report_build.specs.Shown.{ShowsRows};

/// Boxes are shown by their rows, which hold at each of their stores.
pub fn boxes_are_shown()
    ensures { ShowsRows box_abstraction Box }
{}

/// Octagons are shown by their rows, which hold at each of their stores.
pub fn octagons_are_shown()
    ensures { ShowsRows octagon_abstraction Oct }
{}
