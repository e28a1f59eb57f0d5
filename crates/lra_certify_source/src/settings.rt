//! How a source is analysed that is to be certified.

ghost use Rattle.std.specs.Prelude.{◌≡◌};
ghost use Rattle.lra_certify_source.specs.Settings as settings;

use lra_analyse_source::Domain;
use lra_report::Options;

/// Over polyhedra, one for each point, with one round of joining and the limited widening; heads aren't narrowed.
pub fn certify_options() -> Options
    ensures { result ≡ settings.certify_options }
{
    Options {
        domain: Domain::Poly,
        parts: 1,
        delay: 1,
        narrow: 0,
        limited: true,
        thresholds: false,
        fits: false,
    }
}
