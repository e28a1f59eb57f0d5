//! The blocks of a sample source.
ghost use Rattle.std.specs.Prelude.{◌≡◌, ◌++◌, OnOk, string_bytes};
ghost use Rattle.lra_sample.specs.Draws.{state_after};
ghost use Rattle.lra_sample.specs.Sample.{block_from, block_line, kind_of, line_as};

use crate::draws::Generator;
use std::alloc::AllocError;

/// What the statements of a block do.
#[derive(Clone, Copy)]
pub(crate) enum Kind {
    /// One variable becomes another and a constant.
    Sum,
    /// If one variable is below a constant another grows by 1, else it becomes the constant.
    Choice,
    /// A variable counts up to a constant.
    Count,
    /// A variable becomes some number up to a constant.
    Input,
}

impl Kind {
    fn of(drawn: u64) -> Kind
        ensures { result ≡ kind_of drawn }
    {
        match drawn % 4 {
            0 => Kind::Sum,
            1 => Kind::Choice,
            2 => Kind::Count,
            _ => Kind::Input,
        }
    }
}

/// A line of statements over two of the variables, given by their numbers, and a constant below 100.
#[derive(Clone, Copy)]
pub(crate) struct Block {
    kind: Kind,
    first: u64,
    second: u64,
    constant: u64,
}

impl Block {
    /// The block of the next four draws.
    pub(crate) fn draw(generator: &mut Generator) -> Block
        ensures state { generator.new.state ≡ state_after generator.old.state 4 }
        ensures block { result ≡ block_from generator.old.state }
    {
        let kind = Kind::of(generator.draw());
        let first = generator.draw() % 4;
        let second = generator.draw() % 4;
        let constant = generator.draw() % 100;
        Block {
            kind,
            first,
            second,
            constant,
        }
    }

    fn push_sum(&self, text: &mut String) -> Result<(), AllocError>
        ensures { OnOk result (string_bytes text.new ≡ string_bytes text.old ++ line_as Kind.Sum self.now) }
    {
        let p = self.first;
        let q = self.second;
        let c = self.constant;
        writeln!(text, "v{p}=v{q}+{c};")
    }

    fn push_choice(&self, text: &mut String) -> Result<(), AllocError>
        ensures { OnOk result (string_bytes text.new ≡ string_bytes text.old ++ line_as Kind.Choice self.now) }
    {
        let p = self.first;
        let q = self.second;
        let c = self.constant;
        write!(text, "if(v{p}<{c})v{q}=v{q}+1;")?;
        writeln!(text, "else v{q}={c};")
    }

    fn push_count(&self, text: &mut String) -> Result<(), AllocError>
        ensures { OnOk result (string_bytes text.new ≡ string_bytes text.old ++ line_as Kind.Count self.now) }
    {
        let p = self.first;
        let c = self.constant;
        writeln!(text, "v{p}=0;while(v{p}<{c})v{p}=v{p}+1;")
    }

    fn push_input(&self, text: &mut String) -> Result<(), AllocError>
        ensures { OnOk result (string_bytes text.new ≡ string_bytes text.old ++ line_as Kind.Input self.now) }
    {
        let p = self.first;
        let c = self.constant;
        writeln!(text, "v{p}=input();assume(v{p}>=0&&v{p}<={c});")
    }

    /// Appends the block's line.
    pub(crate) fn push_to(&self, text: &mut String) -> Result<(), AllocError>
        ensures { OnOk result (string_bytes text.new ≡ string_bytes text.old ++ block_line self.now) }
    {
        match self.kind {
            Kind::Sum => self.push_sum(text),
            Kind::Choice => self.push_choice(text),
            Kind::Count => self.push_count(text),
            Kind::Input => self.push_input(text),
        }
    }
}
