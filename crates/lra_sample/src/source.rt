//! The sample source.
ghost use Rattle.std.specs.Prelude.{◌≡◌, ◌+◌, ◌*◌, ◌≤◌, ◌++◌, IfOk, OnOk, length, string_bytes};
ghost use Rattle.lra_sample.specs.Sample.{block_lines, sample_source};

use crate::block::Block;
use crate::draws::Generator;
use std::alloc::{AllocError, Global};

const HEAD: &str = "int main(void){\nlong v0=0;\nlong v1=0;\nlong v2=0;\nlong v3=0;\n";

const END: &str = "assert(v0<=v0);\n}\n";

/// Appends the lines of so many blocks.
#[tactic(auto, using(crate::proofs::Blocks::state_more, crate::proofs::Blocks::lines_more))]
fn push_blocks(text: &mut String, seed: u64, size: u32) -> Result<(), AllocError>
    ensures { OnOk result (string_bytes text.new ≡ string_bytes text.old ++ block_lines seed size) }
{
    let mut generator = Generator { state: seed };
    for _ in 0..size {
        let block = Block::draw(&mut generator);
        block.push_to(text)?;
    }
    Ok(())
}

/// The text of a sample source.
fn sample_text(alloc: Global, seed: u64, size: u32) -> Result<String, AllocError>
    ensures { IfOk result (λ text. string_bytes text ≡ sample_source seed size) }
{
    let mut text = String::from_str(alloc, HEAD)?;
    push_blocks(&mut text, seed, size)?;
    text.push_str(END)?;
    Ok(text)
}

/// The sample source of a seed, with as many blocks as `size` says; up to 400 of them keep within 65,536 bytes.
pub fn program(alloc: Global, seed: u64, size: u32) -> Result<Vec<u8>, AllocError>
    ensures source { IfOk result (λ source. source.items ≡ sample_source seed size) }
    ensures short { IfOk result (λ source. length source.items ≤ 78 + 34 * size) }
{
    let text = sample_text(alloc, seed, size)?;
    Ok(text.into_bytes())
}
