//! What is reported about the report of a sample source.
ghost use Rattle.std.specs.Prelude.{◌≡◌, ◌++◌, IfOk, OnOk, string_bytes};
ghost use Rattle.lra_report.specs.View.{report_of};
ghost use Rattle.lra_sample.specs.{Sample.sample_source, Summary.sizes_text, Summary.summary_text};

use lra_report::{Report, push_counts, push_flag};
use std::alloc::{AllocError, Global};

/// Appends the first three lines.
fn push_sizes(
    text: &mut String,
    seed: u64,
    size: u32,
    bytes: usize,
    points: usize,
) -> Result<(), AllocError>
    ensures { OnOk result (string_bytes text.new ≡ string_bytes text.old ++ sizes_text seed size bytes points) }
{
    writeln!(
        text,
        "sample seed {seed} size {size}\nbytes {bytes}\npoints {points}"
    )
}

/// The lines that say of a sample source of this seed and size and of its report.
pub fn summary(
    alloc: Global,
    seed: u64,
    size: u32,
    source: &[u8],
    report: &Report,
) -> Result<String, AllocError>
    requires { source.now ≡ sample_source seed size }
    ensures { IfOk result (λ text. string_bytes text ≡ summary_text seed size (report_of report.now)) }
{
    let mut text = String::new(alloc);
    let bytes = source.len();
    let points = report.points.len();
    push_sizes(&mut text, seed, size, bytes, points)?;
    push_flag(&mut text, report.flagged)?;
    push_counts(&mut text, &report.verdicts)?;
    Ok(text)
}
